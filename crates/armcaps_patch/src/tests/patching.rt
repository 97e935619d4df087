//! Images and what becomes of them.

use super::*;

// The callback at 0x2000 and the conduit, the table, the words of the image, and what becomes of them.
#[test]
fn images_are_patched(rt: HostRuntime) -> Result<(), Fail> {
    let none = Conduit::None;
    let rows: [(
        Option<CallbackKind>,
        Conduit,
        &'static [[u8; 12]],
        Words,
        Words,
    ); 11] = [
        (
            None,
            none,
            &[[0x00, 0x01, 0, 0, 0xfc, 0x1f, 0, 0, 1, 0, 8, 8]],
            &[(0x2000, 0x9400_0400), (0x2004, 0x1400_0001)],
            &[(0x100, 0x9400_0bc0), (0x104, 0x1400_0001)],
        ),
        (
            None,
            none,
            &[[0x00, 0x01, 0, 0, 0x0c, 0x20, 0, 0, 1, 0, 4, 4]],
            &[(0x2010, 0xf000_0000)],
            &[(0x100, 0xb000_0020)],
        ),
        (
            Some(CallbackKind::FinalCtr),
            none,
            &[[0x00, 0x01, 0, 0, 0xfc, 0x1f, 0, 0, 1, 0x80, 16, 0]],
            &[(0x100, 0xd53b_0023)],
            &[
                (0x100, 0xd290_0083),
                (0x104, 0xf2b0_8883),
                (0x108, 0xf2c0_0003),
                (0x10c, 0xf2e0_0003),
            ],
        ),
        (
            None,
            none,
            &[
                [0x00, 0x01, 0, 0, 0xfc, 0x1f, 0, 0, 1, 0, 8, 8],
                [0xf8, 0x00, 0, 0, 0xf8, 0x1f, 0, 0, 1, 0, 4, 4],
            ],
            &[(0x2000, NOP), (0x2004, NOP), (0x2008, 0xd400_0003)],
            &[(0x100, NOP), (0x104, 0xd400_0003)],
        ),
        (
            None,
            none,
            &[
                [0x00, 0x01, 0, 0, 0xfc, 0x1f, 0, 0, 1, 0, 8, 8],
                [0xf8, 0x00, 0, 0, 0xf4, 0x1f, 0, 0, 2, 0, 4, 0],
            ],
            &[(0x2000, NOP), (0x2004, NOP)],
            &[(0x100, NOP), (0x104, NOP)],
        ),
        (
            Some(CallbackKind::Nops),
            none,
            CALL,
            &[(0x100, 0x1234_5678)],
            &[(0x100, NOP)],
        ),
        (
            Some(CallbackKind::Conduit),
            Conduit::Hvc,
            CALL,
            &[(0x100, 0x1234_5678)],
            &[(0x100, 0xd400_0002)],
        ),
        (
            Some(CallbackKind::Conduit),
            Conduit::Smc,
            CALL,
            &[(0x100, 0x1234_5678)],
            &[(0x100, 0xd400_0003)],
        ),
        (
            Some(CallbackKind::Keep),
            Conduit::Smc,
            CALL,
            &[(0x100, 0x1234_5678)],
            &[],
        ),
        (
            None,
            none,
            &[[0xfc, 0x0f, 0, 0, 0xfc, 0x17, 0, 0, 1, 0, 8, 8]],
            &[(0x1800, NOP), (0x1804, 0x9400_003f)],
            &[(0xffc, NOP), (0x1000, 0x9400_0240)],
        ),
        (
            None,
            none,
            &[[0x00, 0x01, 0, 0, 0xfc, 0x1f, 0, 0, 1, 0, 0, 0]],
            &[],
            &[],
        ),
    ];
    let boot = machine(&rt, rt.alloc(), 0x8444_8004)?;
    for (callback, conduit, table, words, becomes) in rows {
        let names = names(rt.alloc(), callback, conduit)?;
        let original = image(&rt, rt.alloc(), 12288, table, words)?;
        let mut expected = Vec::from_slice(rt.alloc(), &original)?;
        for (place, word) in becomes {
            put(&rt, &mut expected, *place, *word);
        }
        let count = u32::try_from(table.len()).unwrap_or(0);
        assert_eq!(&rt;
            laid_over(&rt, rt.alloc(), &original, count, &names, &boot)?,
            expected
        );
        assert_eq!(&rt;
            patched(&rt, rt.alloc(), &original, count, &names, &boot)?,
            Ok(expected)
        );
    }
    Ok(())
}
