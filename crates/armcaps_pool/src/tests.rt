//! Verdicts on images without a table, and on a worked image beside its patched one.

ghost use Rattle.std.specs.Prelude.{◌≡◌, ◌∷◌, [], IfOk, true};
ghost use Rattle.armcaps_alt.specs.declared.callback_kind.CallbackKind.TheVariants as CallbackKind;
ghost use Rattle.armcaps_alt.specs.declared.named_number.Named.TheVariants as Named;
ghost use Rattle.armcaps_alt.specs.declared.smccc_conduit.Conduit.TheVariants as Conduit;

use super::*;
use armcaps_alt::{CallbackKind, Conduit, Named, Names};
use armcaps_caps::CapSet;
use armcaps_image::put_word;
use std::alloc::{AllocError, Global};
use std::process::Abort;
use std::test::Fail;

// No number and no callback is named.
fn nameless(alloc: Global) -> Names {
    Names::new(Vec::new(alloc), Vec::new(alloc), Conduit::None)
}

// The verdict on an image beside its original, where no table says anything.
fn verdict(
    rt: &impl Abort,
    alloc: Global,
    image: &[u8],
    patched: &[u8],
) -> Result<Verdict, AllocError> {
    assert!(rt; image.len() == patched.len() && image.len() <= 1 << 29);
    audit(
        alloc,
        image,
        patched,
        0,
        0,
        &nameless(alloc),
        &CapSet::empty(),
        0,
    )
}

// Images of 0 to 300 bytes without a table: the original is right, and each changed byte is told, the last too.
#[test]
fn images_without_entries(rt: HostRuntime) -> Result<(), Fail> {
    let alloc = rt.alloc();
    for size in [0usize, 1, 2, 3, 4, 5, 6, 7, 8, 255, 256, 257, 259, 260, 300] {
        let image = Vec::from_elem(alloc, 0x5au8, size)?;
        assert_eq!(rt; verdict(&rt, alloc, &image, &image)?, Verdict::Yes);
        for place in 0..size {
            let mut changed = Vec::from_slice(alloc, &image)?;
            assert!(rt; place < changed.len());
            changed[place] = 0xda;
            assert_eq!(rt;
                verdict(&rt, alloc, &image, &changed)?,
                Verdict::No {
                    place: place as u64
                }
            );
        }
    }
    Ok(())
}

// A table of seven entries at the begin, all selected, and from byte 84 on the words of sites and replacements. Two
// sites overlap, one lies in the table, and there is a callback of each kind.
const WORKED: [u8; 136] = [
    0x54, 0x00, 0x00, 0x00, 0x74, 0x00, 0x00, 0x00, 0x01, 0x00, 0x08, 0x08, 0x4c, 0x00, 0x00, 0x00,
    0x70, 0x00, 0x00, 0x00, 0x01, 0x00, 0x04, 0x04, 0x44, 0x00, 0x00, 0x00, 0xac, 0x00, 0x00, 0x00,
    0x01, 0x80, 0x04, 0x00, 0xdc, 0xff, 0xff, 0xff, 0x5c, 0x00, 0x00, 0x00, 0x01, 0x00, 0x04, 0x04,
    0x30, 0x00, 0x00, 0x00, 0x98, 0x00, 0x00, 0x00, 0x01, 0x80, 0x10, 0x00, 0x34, 0x00, 0x00, 0x00,
    0x90, 0x00, 0x00, 0x00, 0x01, 0x80, 0x04, 0x00, 0x2c, 0x00, 0x00, 0x00, 0x88, 0x00, 0x00, 0x00,
    0x01, 0x80, 0x04, 0x00, 0xf5, 0x03, 0x00, 0xaa, 0xf6, 0x03, 0x00, 0xaa, 0xf7, 0x03, 0x00, 0xaa,
    0x23, 0x00, 0x3b, 0xd5, 0xf9, 0x03, 0x00, 0xaa, 0xfa, 0x03, 0x00, 0xaa, 0xfb, 0x03, 0x00, 0xaa,
    0xfc, 0x03, 0x00, 0xaa, 0xfd, 0x03, 0x00, 0xaa, 0xe2, 0xff, 0xff, 0x17, 0x01, 0x00, 0x00, 0x14,
    0x1f, 0x20, 0x03, 0xd5, 0x03, 0x00, 0x00, 0xd4,
];

// The words that become others, by their places. The second word of the first site is the second entry's.
const BECOMES: [(usize, u32); 9] = [
    (0, 0xd4000003),
    (84, 0x17ffffeb),
    (88, 0xd503201f),
    (92, 0xd503201f),
    (96, 0xd2900083),
    (100, 0xf2b08883),
    (104, 0xf2c00003),
    (108, 0xf2e00003),
    (112, 0xd4000002),
];

// Number 1 is given, and a callback of each kind is named.
fn worked_names(alloc: Global) -> Result<Names, AllocError>
    ensures { IfOk result (λ names. names ≡ record {
      numbers = (1, Named.Given true) ∷ [];
      callbacks = (200, CallbackKind.Nops) ∷ (204, CallbackKind.FinalCtr) ∷ (208, CallbackKind.Conduit)
          ∷ (212, CallbackKind.Keep) ∷ [];
      conduit = Conduit.Hvc;
    }) }
{
    let callbacks = vec![in alloc;
        (200, CallbackKind::Nops),
        (204, CallbackKind::FinalCtr),
        (208, CallbackKind::Conduit),
        (212, CallbackKind::Keep),
    ]?;
    Ok(Names::new(
        vec![in alloc; (1, Named::Given(true))]?,
        callbacks,
        Conduit::Hvc,
    ))
}

// The verdict on an image beside the worked one.
fn worked_verdict(rt: &impl Abort, alloc: Global, patched: &[u8]) -> Result<Verdict, AllocError> {
    let names = worked_names(alloc)?;
    assert!(rt; patched.len() == 136);
    audit(
        alloc,
        &WORKED,
        patched,
        0,
        7,
        &names,
        &CapSet::empty(),
        0x8444_8004,
    )
}

// The patched image is right. The original is wrong from the site in the table on, and so is the image in each byte
// with one bit changed, in a word of two sites and the last one too.
#[test]
fn worked_image(rt: HostRuntime) -> Result<(), Fail> {
    let alloc = rt.alloc();
    let mut right = Vec::from_slice(alloc, &WORKED)?;
    for (place, word) in BECOMES {
        assert!(rt; place <= 132 && right.len() == 136);
        put_word(&mut right, place, word);
    }
    assert_eq!(rt; worked_verdict(&rt, alloc, &right)?, Verdict::Yes);
    assert_eq!(rt;
        worked_verdict(&rt, alloc, &WORKED)?,
        Verdict::No { place: 0 }
    );
    for place in 0..136 {
        for mask in [1u8, 2, 4, 8, 16, 32, 64, 128] {
            let mut changed = Vec::from_slice(alloc, &right)?;
            assert!(rt; place < changed.len());
            changed[place] ^= mask;
            assert_eq!(rt;
                worked_verdict(&rt, alloc, &changed)?,
                Verdict::No {
                    place: place as u64
                }
            );
        }
    }
    Ok(())
}

// BL and B.EQ have the target of the B that is right, and other bits or another class; the B that was not moved, the
// first entry's word where two cover it, another register, another call, and a callback that keeps its word.
#[test]
fn other_words(rt: HostRuntime) -> Result<(), Fail> {
    let alloc = rt.alloc();
    for (at, other, place) in [
        (84usize, 0x97ff_ffebu32, 87u64),
        (84, 0x54ff_fd60, 84),
        (84, 0x17ff_ffe2, 84),
        (88, 0x1400_0001, 88),
        (100, 0xf2b0_8884, 100),
        (112, 0xd400_0003, 112),
        (116, 0xd503_201f, 116),
    ] {
        let mut changed = Vec::from_slice(alloc, &WORKED)?;
        for (begin, word) in BECOMES {
            assert!(rt; begin <= 132 && changed.len() == 136);
            put_word(&mut changed, begin, word);
        }
        assert!(rt; at <= 132 && changed.len() == 136);
        put_word(&mut changed, at, other);
        assert_eq!(rt;
            worked_verdict(&rt, alloc, &changed)?,
            Verdict::No { place }
        );
    }
    Ok(())
}
