use super::*;
use crate::judging::judge;
use armcaps_image::put_word;
use armcaps_insn::NOP;
use armcaps_io::MemSink;
use std::test::Fail;

// Puts a word at a place, if it lies in the image.
fn put(image: &mut [u8], place: usize, word: u32) {
    if place < image.len() && image.len() - place >= 4 {
        put_word(image, place, word);
    }
}

// One entry at 0x200 of an image of 0x400 bytes: its four words, the key's count at 0x300, and the place and word that
// are expected, or the kind.
#[test]
fn one_entry_is_applied(rt: HostRuntime) -> Result<(), Fail> {
    let cases: [([u32; 5], Result<(usize, u32), u8>); 26] = [
        (
            [0xffff_ff00, 0xffff_ff7c, 0xf8, 0, 1],
            Ok((0x100, 0x1400_0020)),
        ),
        ([0xffff_ff00, 0xffff_ff7c, 0xf9, 0, 1], Ok((0x100, NOP))),
        ([0xffff_ff00, 0xffff_ff7c, 0xf8, 0, 0], Ok((0x100, NOP))),
        (
            [0xffff_ff00, 0xffff_ff7c, 0xf9, 0, 0],
            Ok((0x100, 0x1400_0020)),
        ),
        (
            [0xffff_ff00, 0xffff_ff7c, 0xfa, 0, 1],
            Ok((0x100, 0x1400_0020)),
        ),
        ([0xffff_ff00, 0xffff_ff7c, 0xfb, 0, 1], Ok((0x100, NOP))),
        (
            [0xffff_ff00, 0xffff_ff7c, 0xf8, 0, 0x7fff_ffff],
            Ok((0x100, 0x1400_0020)),
        ),
        (
            [0xffff_ff00, 0xffff_ff7c, 0xf8, 0, 0x8000_0000],
            Ok((0x100, NOP)),
        ),
        ([0xffff_ff00, 0xffff_ff7e, 0xf8, 0, 0], Ok((0x100, NOP))),
        ([0xffff_ff00, 0xffff_ff7e, 0xf8, 0, 1], Err(3)),
        (
            [0xffff_ff00, 0xf7ff_fefc, 0xf8, 0, 1],
            Ok((0x100, 0x1600_0000)),
        ),
        ([0xffff_ff00, 0xf7ff_fef8, 0xf8, 0, 1], Err(3)),
        ([0xffff_ff00, 0xf7ff_fef8, 0xf8, 0, 0], Ok((0x100, NOP))),
        (
            [0xffff_ff00, 0x07ff_fef8, 0xf8, 0, 1],
            Ok((0x100, 0x15ff_ffff)),
        ),
        ([0xffff_ff00, 0x07ff_fefc, 0xf8, 0, 1], Err(3)),
        ([0xffff_ff00, 0x7fff_fffc, 0xf8, 0, 1], Err(3)),
        ([0xffff_ff01, 0xffff_ff7c, 0xf8, 0, 1], Err(1)),
        ([0xffff_fdfc, 0xffff_ff7c, 0xf8, 0, 1], Err(1)),
        ([0x0000_01fc, 0xffff_ff7c, 0xf8, 0, 0], Ok((0x3fc, NOP))),
        ([0x0000_0200, 0xffff_ff7c, 0xf8, 0, 0], Err(1)),
        ([0xffff_fe00, 0xffff_fdfc, 0xf8, 0, 1], Ok((0, 0x1400_0000))),
        (
            [0xffff_ff00, 0xffff_ff7c, 0x1f4, 0, 1],
            Ok((0x100, 0x1400_0020)),
        ),
        ([0xffff_ff00, 0xffff_ff7c, 0x1f8, 0, 1], Err(2)),
        (
            [0xffff_ff00, 0xffff_ff7c, 0xffff_fdf4, 0xffff_ffff, 1],
            Err(2),
        ),
        (
            [0xffff_ff00, 0xffff_ff7c, 0xffff_fff8, 0x7fff_ffff, 1],
            Err(2),
        ),
        (
            [0xffff_ff01, 0x7fff_fffc, 0xffff_fff8, 0x7fff_ffff, 1],
            Err(1),
        ),
    ];
    for (words, expected) in cases {
        let mut image = [0x11; 0x400];
        for index in 0..4 {
            put(&mut image, 0x200 + 4 * index, words[index]);
        }
        put(&mut image, 0x300, words[4]);
        match Jumps::check(rt.alloc(), &image, 0x200, 1) {
            Ok(jumps) => {
                let mut sink = MemSink::new(rt.alloc(), 0x400, 100, vec![in rt.alloc()]?)?;
                assert_eq!(rt; jumps.write(&image, &mut sink), Ok(()));
                let (place, word) = expected.unwrap_or((0, 0));
                put(&mut image, place, word);
                assert!(rt; expected.is_ok(), "of {words:?}");
                assert_eq!(rt; sink.bytes(), image.as_slice(), "of {words:?}");
            }
            Err(refused) => {
                let kind = expected.err().unwrap_or(0);
                assert_eq!(rt;
                    refused,
                    JumpRefused::Entry { entry: 0, kind },
                    "of {words:?}"
                );
            }
        }
    }
    Ok(())
}

// Two entries with one code place, of which the second is off; code at the end of a piece and at the next one's begin,
// which is the image's last word; and a third entry that is refused.
#[test]
fn the_last_entry_counts(rt: HostRuntime) -> Result<(), Fail> {
    let words = [
        0xffff_ff00,
        0xffff_ff7c,
        0xf8,
        0,
        0xffff_fef0,
        0xffff_ff6c,
        0xec,
        0,
        0xffff_fee4,
        0xffff_ff5c,
        0xd8,
        0,
        0x0000_0dcc,
        0xffff_ff4c,
        0xcd,
        0,
        0x0000_0dc0,
        0,
        0xbc,
        0,
    ];
    let mut image = [0x11; 0x1004];
    for (index, word) in words.iter().enumerate() {
        put(&mut image, 0x200 + 4 * index, *word);
    }
    put(&mut image, 0x300, 1);
    put(&mut image, 0x304, 0);
    for count in [1, 5] {
        let Ok(jumps) = Jumps::check(rt.alloc(), &image, 0x200, count) else {
            assert!(rt; false, "of {count}");
            return Ok(());
        };
        let mut sink = MemSink::new(rt.alloc(), 0x1004, 4096, vec![in rt.alloc()]?)?;
        assert_eq!(rt; jumps.write(&image, &mut sink), Ok(()));
        let mut expected = image;
        put(&mut expected, 0x100, 0x1400_0020);
        if count == 5 {
            put(&mut expected, 0x100, NOP);
            put(&mut expected, 0x104, 0x1400_001f);
            put(&mut expected, 0xffc, 0x17ff_fc61);
            put(&mut expected, 0x1000, NOP);
        }
        assert_eq!(rt; sink.bytes(), expected.as_slice(), "of {count}");
    }
    put(&mut image, 0x220, 1);
    let refused = Jumps::check(rt.alloc(), &image, 0x200, 5).err();
    assert_eq!(rt; refused, Some(JumpRefused::Entry { entry: 2, kind: 1 }));
    Ok(())
}

#[test]
fn tables_lie_within(rt: HostRuntime) {
    let image = [0; 0x400];
    for (table, count, expected) in [
        (0x400, 0, None),
        (0x401, 0, Some(JumpRefused::Table)),
        (0x3f0, 1, None),
        (0x3f1, 1, Some(JumpRefused::Table)),
        (0, 0x40, None),
        (0, 0x41, Some(JumpRefused::Table)),
        (0xffff_ffff, 0xffff_ffff, Some(JumpRefused::Table)),
    ] {
        let refused = Jumps::check(rt.alloc(), &image, table, count).err();
        assert_eq!(rt; refused, expected, "of {table} {count}");
    }
}

// Entries over four pieces in no order, some of them with one code place: what is written is what comes of putting one
// word after the other, as the table has them.
#[test]
fn words_are_put_in_the_order_of_the_table(rt: HostRuntime) -> Result<(), Fail> {
    let mut image = [0x11; 0x3004];
    for number in 0..64u32 {
        let place = 16 * number;
        let code = 0x400 + number * 37 % 52 * 216;
        put(&mut image, place as usize, code - place);
        put(&mut image, place as usize + 4, code + 4 * number - place);
        put(
            &mut image,
            place as usize + 8,
            0x3000 - place - 8 + number % 3 % 2,
        );
        put(&mut image, place as usize + 12, 0);
    }
    put(&mut image, 0x3000, 1);
    let Ok(jumps) = Jumps::check(rt.alloc(), &image, 0, 64) else {
        assert!(rt; false);
        return Ok(());
    };
    let mut sink = MemSink::new(rt.alloc(), 0x3004, 4096, vec![in rt.alloc()]?)?;
    assert_eq!(rt; jumps.write(&image, &mut sink), Ok(()));
    let mut expected = image;
    for number in 0..64usize {
        let entry = JumpEntry::read(&image[16 * number..], 16 * number as u64);
        match judge(&entry, &image) {
            Ok(site) => put(&mut expected, site.place as usize, site.word),
            Err(kind) => assert_eq!(rt; kind, 0, "of {number}"),
        }
    }
    assert_eq!(rt; sink.bytes(), expected.as_slice());
    Ok(())
}
