use super::*;
use armcaps_caps::CapSet;
use std::test::Fail;

#[test]
fn names_are_found(rt: HostRuntime) -> Result<(), Fail> {
    let numbers = vec![in rt.alloc();
        (1, Named::Cap(1)),
        (7, Named::Given(true)),
        (32767, Named::Given(false)),
    ]?;
    let callbacks = vec![in rt.alloc(); (0, CallbackKind::Keep), (8192, CallbackKind::FinalCtr)]?;
    let names = Names::new(numbers, callbacks, Conduit::Smc);
    assert_eq!(rt; names.find(1), Some(Named::Cap(1)));
    assert_eq!(rt; names.find(7), Some(Named::Given(true)));
    assert_eq!(rt; names.find(32767), Some(Named::Given(false)));
    assert_eq!(rt; names.find(0), None);
    assert_eq!(rt; names.find(8), None);
    assert_eq!(rt; names.callback(8192), Some(CallbackKind::FinalCtr));
    assert_eq!(rt; names.callback(0), Some(CallbackKind::Keep));
    assert_eq!(rt; names.callback(4), None);
    assert_eq!(rt; names.callback(-8192), None);
    assert_eq!(rt; names.callback(4294975488), None);
    assert_eq!(rt; names.conduit(), Conduit::Smc);
    Ok(())
}

// Twelve bytes: the site, the replacement, the number, whether there is a callback, the lengths.
#[test]
fn entries_are_read(rt: HostRuntime) {
    let cases: [([u8; 12], i64, i64, u16, bool, u8, u8); 6] = [
        (
            [0x00, 0x01, 0, 0, 0xfc, 0x1f, 0, 0, 0x01, 0x00, 8, 8],
            0x100,
            0x2000,
            1,
            false,
            8,
            8,
        ),
        (
            [0x00, 0x01, 0, 0, 0xfc, 0x1f, 0, 0, 0x01, 0x80, 16, 0],
            0x100,
            0x2000,
            1,
            true,
            16,
            0,
        ),
        (
            [0xff, 0xff, 0xff, 0xff, 0xfc, 0x1f, 0, 0, 0x01, 0x00, 8, 8],
            -1,
            0x2000,
            1,
            false,
            8,
            8,
        ),
        (
            [0x00, 0x00, 0x00, 0x80, 0xfc, 0x1f, 0, 0, 0x01, 0x00, 8, 8],
            -0x8000_0000,
            0x2000,
            1,
            false,
            8,
            8,
        ),
        (
            [0x00, 0x01, 0, 0, 0xf8, 0x2f, 0, 0, 0x01, 0x00, 8, 0xff],
            0x100,
            0x2ffc,
            1,
            false,
            8,
            0xff,
        ),
        (
            [0x00, 0x01, 0, 0, 0xfc, 0xff, 0xff, 0x7f, 0xff, 0x7f, 8, 8],
            0x100,
            0x8000_0000,
            0x7fff,
            false,
            8,
            8,
        ),
    ];
    for (bytes, site, repl, number, callback, orig_len, alt_len) in cases {
        let expected = Entry {
            site,
            repl,
            number,
            callback,
            orig_len,
            alt_len,
        };
        assert_eq!(rt; Entry::read(&bytes, 0), expected);
    }
    let moved = Entry::read(&[0, 0, 0, 0, 0, 0, 0, 0, 0xff, 0xff, 0, 0], 0x1000);
    assert_eq!(rt; moved.site, 0x1000);
    assert_eq!(rt; moved.repl, 0x1004);
    assert_eq!(rt; moved.number, 0x7fff);
    assert!(rt; moved.callback);
}

#[test]
fn callbacks_make_words(rt: HostRuntime) {
    let orig = 0x1234_5678;
    assert_eq!(rt;
        callback_word(CallbackKind::Nops, 0, 0, Conduit::None, orig, orig),
        0xd503_201f
    );
    assert_eq!(rt;
        callback_word(CallbackKind::Conduit, 0, 0, Conduit::Hvc, orig, orig),
        0xd400_0002
    );
    assert_eq!(rt;
        callback_word(CallbackKind::Conduit, 0, 0, Conduit::Smc, orig, orig),
        0xd400_0003
    );
    assert_eq!(rt;
        callback_word(CallbackKind::Conduit, 0, 0, Conduit::None, orig, orig),
        orig
    );
    assert_eq!(rt;
        callback_word(CallbackKind::Keep, 5, 0, Conduit::Smc, 0, orig),
        orig
    );
    let loads = [0xd290_0083, 0xf2b0_8883, 0xf2c0_0003, 0xf2e0_0003];
    for (index, expected) in loads.iter().enumerate() {
        let made = callback_word(
            CallbackKind::FinalCtr,
            index as u32,
            0x8444_8004,
            Conduit::None,
            0xd53b_0023,
            0,
        );
        assert_eq!(rt; made, *expected);
    }
}

#[test]
fn kinds_are_reported(rt: HostRuntime) {
    assert_eq!(rt; PatchKind::UnknownCap.number(), 1);
    assert_eq!(rt; PatchKind::CallbackLength.number(), 7);
    assert_eq!(rt; PatchKind::Range.number(), 9);
    assert_eq!(rt; PatchKind::Literal.word(), "literal");
    assert_eq!(rt; PatchKind::ReplacementOutside.word(), "replacement-outside");
}

#[test]
fn entries_are_selected(rt: HostRuntime) -> Result<(), Fail> {
    let numbers = vec![in rt.alloc();
        (1, Named::Cap(1)),
        (2, Named::Cap(8)),
        (7, Named::Given(true)),
        (9, Named::Given(false)),
    ]?;
    let names = Names::new(numbers, Vec::new(rt.alloc()), Conduit::None);
    let mut enabled = CapSet::empty();
    enabled.insert(1);
    for (number, expected) in [
        (1, Some(true)),
        (2, Some(false)),
        (7, Some(true)),
        (9, Some(false)),
        (3, None),
    ] {
        let mut entry = Entry::read(&[0; 12], 0);
        entry.number = number;
        assert_eq!(rt; selected(&entry, &names, &enabled), expected);
    }
    Ok(())
}
