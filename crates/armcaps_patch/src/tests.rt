ghost use Rattle.std.specs.Prelude.{◌≡◌, ◌<◌, ◌≤◌, ℕ, IfOk, None, length, true};
ghost use Rattle.armcaps_enc.specs.declared.register.SysReg.TheVariants.{CtrEl0};
ghost use Rattle.armcaps_tables.specs.Overriding.{override_of};

mod patching;
mod refusing;

use super::*;
use armcaps_alt::{
    CallbackKind, Conduit, Entry, Layout, Named, Names, PatchKind, callback_word, selected,
};
use armcaps_boot::{Boot, Event, Reply};
use armcaps_caps::CapSet;
use armcaps_enc::SysReg;
use armcaps_insn::{NOP, correct};
use armcaps_io::{Failed, MemSink, Sink};
use armcaps_tables::{CoreRegs, Overrides};
use byteorder::{ByteOrder, LittleEndian};
use std::alloc::{AllocError, Global};
use std::process::Abort;
use std::test::Fail;

// No overrides: so none of a field of CTR_EL0.
fn without_overrides() -> Overrides
    ensures { (index : ℕ) → override_of result CtrEl0 index ≡ None }
{
    Overrides::none()
}

// A machine of one core whose CTR_EL0 is this, after finalisation.
fn machine(rt: &impl Abort, alloc: Global, ctr: u64) -> Result<Boot, Fail>
    ensures { IfOk result (λ boot. boot.final ≡ true) }
{
    let mut core = CoreRegs::zero();
    core.set(SysReg::CtrEl0, ctr);
    let Ok(mut boot) = Boot::new(alloc, vec![in alloc; core]?, 0, without_overrides()) else {
        return Err(Fail::from("no memory"));
    };
    assert_eq!(rt; boot.step(Event::Finalise), Ok(Reply::Done));
    assert!(rt; boot.is_final());
    Ok(boot)
}

// The number 1 is ALWAYS_SYSTEM, 2 is given as off, and a callback may stand at 0x2000.
fn names(
    alloc: Global,
    callback: Option<CallbackKind>,
    conduit: Conduit,
) -> Result<Names, AllocError> {
    let numbers = vec![in alloc; (1, Named::Cap(1)), (2, Named::Given(false))]?;
    let callbacks = match callback {
        Some(kind) => vec![in alloc; (0x2000, kind)]?,
        None => Vec::new(alloc),
    };
    Ok(Names::new(numbers, callbacks, conduit))
}

// The word at a place of an image.
fn word_at(rt: &impl Abort, image: &[u8], place: usize) -> u32 {
    assert!(rt; image.len() >= 4 && place <= image.len() - 4);
    LittleEndian::read_u32(&image[place..])
}

// Puts a word at a place of an image.
fn put(rt: &impl Abort, image: &mut [u8], place: usize, word: u32) {
    assert!(rt; image.len() >= 4 && place <= image.len() - 4);
    LittleEndian::write_u32(&mut image[place..], word);
}

// An image of so many bytes, with a table at its begin and these words.
fn image(
    rt: &impl Abort,
    alloc: Global,
    size: usize,
    table: &[[u8; 12]],
    words: &[(usize, u32)],
) -> Result<Vec<u8>, AllocError> {
    let mut image = Vec::from_elem(alloc, 0u8, size)?;
    for (index, entry) in table.iter().enumerate() {
        for k in 0..3 {
            put(
                rt,
                &mut image,
                12 * index + 4 * k,
                word_at(rt, entry, 4 * k),
            );
        }
    }
    for (place, word) in words {
        put(rt, &mut image, *place, *word);
    }
    Ok(image)
}

// What checking and writing give: the image that the sink got.
fn patched(
    rt: &impl Abort,
    alloc: Global,
    image: &[u8],
    count: u32,
    names: &Names,
    boot: &Boot,
) -> Result<Result<Vec<u8>, PatchRefused>, Fail> {
    let layout = Layout { table: 0, count };
    assert!(rt;
        image.len() <= 1 << 29 && 12 * u64::from(count) <= image.len() as u64 && boot.is_final()
    );
    match Plan::check(alloc, image, layout, names, boot) {
        Ok(plan) => {
            let mut sink = MemSink::new(alloc, image.len(), 4096, Vec::new(alloc))?;
            assert_eq!(rt; plan.write(image, &mut sink), Ok(()));
            Ok(Ok(Vec::from_slice(alloc, sink.bytes())?))
        }
        Err(refused) => Ok(Err(refused)),
    }
}

// The same as the definition says it: the whole image is kept, and the entries are laid over it in the table's order.
fn laid_over(
    rt: &impl Abort,
    alloc: Global,
    image: &[u8],
    count: u32,
    names: &Names,
    boot: &Boot,
) -> Result<Vec<u8>, AllocError> {
    let mut enabled = CapSet::empty();
    for number in 0..53 {
        if boot.enabled(number) {
            enabled.insert(number);
        }
    }
    let mut whole = Vec::from_slice(alloc, image)?;
    for index in 0..u64::from(count) {
        let place = 12 * index as usize;
        assert!(rt; image.len() >= 12 && place <= image.len() - 12);
        let entry = Entry::read(&image[place..], 12 * index);
        if selected(&entry, names, &enabled) == Some(true) {
            lay(rt, &mut whole, &entry, image, names, boot.final_ctr());
        }
    }
    Ok(whole)
}

// Lays the new words of an entry over an image.
fn lay(rt: &impl Abort, whole: &mut [u8], entry: &Entry, image: &[u8], names: &Names, ctr: u64) {
    let site = u64::try_from(entry.site).unwrap_or(0);
    let low = u64::try_from(entry.repl).unwrap_or(0);
    assert!(rt; site < 1 << 30 && low < 1 << 30 && site % 4 == 0);
    for index in 0..u64::from(entry.orig_len / 4) {
        let to = site + 4 * index;
        let orig = word_at(rt, image, to as usize);
        let word = match names.callback(entry.repl) {
            Some(kind) if entry.callback => {
                assert!(rt; index < 4);
                callback_word(
                    kind,
                    index as u32,
                    ctr,
                    names.conduit(),
                    word_at(rt, image, site as usize),
                    orig,
                )
            }
            _ => {
                assert!(rt; low % 4 == 0 && entry.orig_len % 4 == 0);
                let from = low + 4 * index;
                let moved = correct(
                    word_at(rt, image, from as usize),
                    from,
                    to,
                    low,
                    low + u64::from(entry.orig_len),
                );
                moved.unwrap_or(orig)
            }
        };
        put(rt, whole, to as usize, word);
    }
}

type Words = &'static [(usize, u32)];

const CALL: &'static [[u8; 12]] = &[[0x00, 0x01, 0, 0, 0xfc, 0x1f, 0, 0, 1, 0x80, 4, 0]];

// A sink that fails at a piece above 4096 bytes, and counts the bytes of the others.
#[derive(Drop)]
struct Pieces {
    taken: u64,
    faults: u64,
}

impl Sink for Pieces {
    ghost held = { λ s. None };

    ghost faults = { λ s. s.faults };

    fn write(&mut self, piece: &[u8]) -> Result<usize, Failed> {
        if piece.len() > 4096 {
            self.faults = self.faults.saturating_add(1);
            return Err(Failed);
        }
        self.taken = self.taken.saturating_add(piece.len() as u64);
        Ok(piece.len())
    }
}

// Two thousand sites of 63 words, each a word after the one before, with the same replacement, and an entry that is not
// selected.
#[test]
fn sites_overlap(rt: HostRuntime) -> Result<(), Fail> {
    let boot = machine(&rt, rt.alloc(), 0)?;
    let names = names(rt.alloc(), None, Conduit::None)?;
    let mut original = image(&rt, rt.alloc(), 131_072, &[], &[])?;
    for index in 0..2000u32 {
        let place = 12 * index as usize;
        put(&rt, &mut original, place, 0x8000 - 8 * index);
        put(&rt, &mut original, place + 4, 0x1_0000 - 12 * index - 4);
        put(&rt, &mut original, place + 8, 0xfcfc_0001);
    }
    put(&rt, &mut original, 24_008, 0x0404_0002);
    for index in 0..63 {
        put(&rt, &mut original, 0x1_0000 + 4 * index, 0x1111_1111);
    }
    let mut expected = Vec::from_slice(rt.alloc(), &original)?;
    for index in 0..2062 {
        put(&rt, &mut expected, 0x8000 + 4 * index, 0x1111_1111);
    }
    assert_eq!(&rt;
        laid_over(&rt, rt.alloc(), &original, 2001, &names, &boot)?,
        expected
    );
    assert_eq!(&rt;
        patched(&rt, rt.alloc(), &original, 2001, &names, &boot)?,
        Ok(expected)
    );
    let mut pieces = Pieces {
        taken: 0,
        faults: 0,
    };
    let layout = Layout {
        table: 0,
        count: 2001,
    };
    assert!(&rt; original.len() == 131_072 && boot.is_final());
    let Ok(plan) = Plan::check(rt.alloc(), &original, layout, &names, &boot) else {
        return Err(Fail::from("no plan"));
    };
    assert_eq!(&rt; plan.count_entries(), 2000);
    assert_eq!(&rt; plan.count_words(), 126_000);
    assert_eq!(&rt; plan.write(&original, &mut pieces), Ok(()));
    assert_eq!(&rt; pieces.taken, 131_072);
    Ok(())
}
