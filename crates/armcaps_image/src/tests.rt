use super::*;

#[test]
fn numbers_are_read(rt: HostRuntime) {
    let bytes = [0x01, 0x02, 0x03, 0x84, 0xff, 0xff, 0xff, 0xff, 0xfe, 0x7f];
    assert_eq!(rt; half(&bytes, 0), 0x0201);
    assert_eq!(rt; word(&bytes, 0), 0x8403_0201);
    assert_eq!(rt; word(&bytes, 6), 0x7ffe_ffff);
    assert_eq!(rt; quad(&bytes, 2), 0x7ffe_ffff_ffff_8403);
    assert_eq!(rt; signed(&bytes, 0), 0x8403_0201 - 0x1_0000_0000);
    assert_eq!(rt; signed(&bytes, 4), -1);
    assert_eq!(rt; signed(&bytes, 6), 0x7ffe_ffff);
}

#[test]
fn words_are_put(rt: HostRuntime) {
    let mut bytes = [9; 6];
    put_word(&mut bytes, 1, 0xd503_201f);
    assert_eq!(rt; bytes, [9, 0x1f, 0x20, 0x03, 0xd5, 9]);
}

#[test]
fn places_lie_within(rt: HostRuntime) {
    assert_eq!(rt; place_within(8, 4, 4), Some(4));
    assert_eq!(rt; place_within(8, 5, 4), None);
    assert_eq!(rt; place_within(8, 8, 0), Some(8));
    assert_eq!(rt; place_within(8, 9, 0), None);
    assert_eq!(rt; place_within(8, -1, 4), None);
    assert_eq!(rt; place_below(8, 4, 4), Some(4));
    assert_eq!(rt; place_below(8, 0xffff_ffff_ffff_ffff, 4), None);
    assert_eq!(rt; place_within(8, 0x7fff_ffff_ffff_ffff, 255), None);
}

#[test]
fn buckets_begin_where_the_ones_before_end(rt: HostRuntime) {
    let mut numbers = [2, 0, 3];
    sum_up(&mut numbers);
    assert_eq!(rt; numbers, [0, 2, 2]);
    let ends = [2, 2, 5];
    assert_eq!(rt; begin_of(&ends, 0), 0);
    assert_eq!(rt; begin_of(&ends, 2), 2);
    assert_eq!(rt; begin_of(&ends, 3), 5);
}
