use crate::{decimal, hexadecimal, value_of};

#[test]
fn reads_numbers(rt: HostRuntime) {
    assert_eq!(rt; decimal(b"007".as_slice()), Some(7));
    assert_eq!(rt; hexadecimal(b"fF".as_slice()), Some(255));
    assert_eq!(rt; value_of(b"0x10".as_slice()), Some(16));
}
