//! Entries that are refused, and their kinds.

use super::*;

// The callback at 0x2000, the table, the words of the image, and which entry is refused for which kind.
#[test]
fn entries_are_refused(rt: HostRuntime) -> Result<(), Fail> {
    let rows: [(
        Option<CallbackKind>,
        &'static [[u8; 12]],
        Words,
        u32,
        PatchKind,
    ); 13] = [
        (
            None,
            &[[0x00, 0x01, 0, 0, 0x0c, 0x20, 0, 0, 1, 0, 4, 4]],
            &[(0x2010, 0x5800_0040)],
            0,
            PatchKind::Literal,
        ),
        (
            None,
            &[[0x00, 0x01, 0, 0, 0x0c, 0x20, 0, 0, 1, 0, 4, 4]],
            &[(0x2010, 0x3603_ff80)],
            0,
            PatchKind::Range,
        ),
        (
            Some(CallbackKind::FinalCtr),
            &[[0x00, 0x01, 0, 0, 0xfc, 0x1f, 0, 0, 1, 0x80, 12, 0]],
            &[],
            0,
            PatchKind::CallbackLength,
        ),
        (
            None,
            &[[0x00, 0x01, 0, 0, 0xfc, 0x1f, 0, 0, 1, 0x80, 8, 0]],
            &[],
            0,
            PatchKind::UnknownCallback,
        ),
        (
            None,
            &[
                [0x00, 0x01, 0, 0, 0xfc, 0x1f, 0, 0, 1, 0, 8, 8],
                [0xf8, 0x00, 0, 0, 0xf4, 0x1f, 0, 0, 3, 0, 4, 0],
            ],
            &[],
            1,
            PatchKind::UnknownCap,
        ),
        (
            None,
            &[[0xff, 0xff, 0xff, 0xff, 0xfc, 0x1f, 0, 0, 1, 0, 8, 8]],
            &[],
            0,
            PatchKind::Unaligned,
        ),
        (
            None,
            &[[0x00, 0x00, 0x00, 0x80, 0xfc, 0x1f, 0, 0, 1, 0, 8, 8]],
            &[],
            0,
            PatchKind::SiteOutside,
        ),
        (
            None,
            &[[0x10, 0x2f, 0, 0, 0xfc, 0x1f, 0, 0, 1, 0, 0xfc, 0xfc]],
            &[],
            0,
            PatchKind::SiteOutside,
        ),
        (
            None,
            &[[0x00, 0x01, 0, 0, 0xfc, 0x1f, 0, 0, 1, 0, 0xff, 0xff]],
            &[],
            0,
            PatchKind::Unaligned,
        ),
        (
            None,
            &[[0x00, 0x01, 0, 0, 0xfc, 0x1f, 0, 0, 1, 0, 8, 0xff]],
            &[],
            0,
            PatchKind::Length,
        ),
        (
            None,
            &[[0x00, 0x01, 0, 0, 0xf8, 0x2f, 0, 0, 1, 0, 8, 8]],
            &[],
            0,
            PatchKind::ReplacementOutside,
        ),
        (
            None,
            &[[0x00, 0x01, 0, 0, 0xfc, 0xff, 0xff, 0x7f, 1, 0, 8, 8]],
            &[],
            0,
            PatchKind::ReplacementOutside,
        ),
        (
            None,
            &[[0x00, 0x01, 0, 0, 0xfc, 0x1f, 0, 0, 0xff, 0x7f, 8, 8]],
            &[],
            0,
            PatchKind::UnknownCap,
        ),
    ];
    let boot = machine(&rt, rt.alloc(), 0x8444_8004)?;
    for (callback, table, words, entry, kind) in rows {
        let names = names(rt.alloc(), callback, Conduit::None)?;
        let original = image(&rt, rt.alloc(), 12288, table, words)?;
        let answer = patched(
            &rt,
            rt.alloc(),
            &original,
            u32::try_from(table.len()).unwrap_or(0),
            &names,
            &boot,
        )?;
        assert_eq!(&rt; answer, Err(PatchRefused::Entry { entry, kind }));
    }
    Ok(())
}
