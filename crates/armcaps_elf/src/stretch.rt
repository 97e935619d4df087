//! Unbroken stretches of loaded bytes.

ghost use Rattle.std.specs.Prelude.{◌≡◌, ◌+◌, ◌<◌, ◌≤◌, ◌^◌, ◌||◌, ℕ, IfOk, OnOk, false, length, true};
ghost use Rattle.std.specs.List.{All, AllPairs, list_any};
ghost use Rattle.std.specs.List.Sorted.{IsPartitionPoint};
ghost use Rattle.armcaps_elf.specs.Sections.{Follows};
ghost use Rattle.armcaps_elf.specs.Stretches.{IsApart, in_stretch, is_held};

use crate::section::Section;
use std::alloc::{AllocError, Global};

// Bytes of a flat image from one place on to another, all of which are loaded.
#[derive(Clone, Copy, Debug)]
pub(crate) struct Stretch {
    pub(crate) begin: u32,
    pub(crate) end: u32,
}

// The stretches of these sections, which stand in rising address, counted from the base.
pub(crate) fn stretches_of(
    alloc: Global,
    sections: &[Section],
    base: u64,
) -> Result<Vec<Stretch>, AllocError>
    requires rise { AllPairs (Follows (λ section. section.address)) sections.now }
    requires some { All (λ section. 0 < section.size) sections.now }
    requires above { All (λ section. base ≤ section.address) sections.now }
    requires below { All (λ section. section.address + section.size ≤ base + 2 ^ 27) sections.now }
    ensures held { IfOk result (λ stretches. (n : ℕ)
        → list_any (in_stretch n) stretches.items ≡ is_held sections.now (base + n)) }
    ensures apart { IfOk result (λ stretches. IsApart stretches.items) }
{
    let mut stretches = Vec::new(alloc);
    for section in sections {
        let begin = (section.address - base) as u32;
        let end = begin + section.size as u32;
        add(&mut stretches, Stretch { begin, end })?;
    }
    Ok(stretches)
}

// Adds a stretch behind the others. One that begins where the last one ends goes on with it.
fn add(stretches: &mut Vec<Stretch>, more: Stretch) -> Result<(), AllocError>
    requires apart { IsApart stretches.old.items }
    requires behind { All (λ stretch. stretch.end ≤ more.begin) stretches.old.items }
    requires some { more.begin < more.end }
    ensures held { OnOk result ((n : ℕ) → list_any (in_stretch n) stretches.new.items
        ≡ (list_any (in_stretch n) stretches.old.items || in_stretch n more)) }
    ensures apart { OnOk result (IsApart stretches.new.items) }
    ensures behind { OnOk result (All (λ stretch. stretch.end ≤ more.end) stretches.new.items) }
{
    match stretches.pop() {
        None => stretches.push(more)?,
        Some(last) if last.end == more.begin => stretches.push(Stretch {
            begin: last.begin,
            end: more.end,
        })?,
        Some(last) => {
            stretches.push(last)?;
            stretches.push(more)?;
        }
    }
    Ok(())
}

// Whether each byte from one place on to another is in one of these stretches.
pub(crate) fn are_covered(stretches: &[Stretch], start: u64, end: u64) -> bool
    requires { IsApart stretches.now }
    ensures all { result ≡ true → (n : ℕ) → start ≤ n → n < end → list_any (in_stretch n) stretches.now ≡ true }
    ensures some { result ≡ false
        → (n : ℕ) × (start ≤ n) × (n < end) × (list_any (in_stretch n) stretches.now ≡ false) }
{
    if start >= end {
        return true;
    }
    let count = begun(stretches, start);
    count > 0 && end <= stretches[count - 1].end as u64
}

// How many of the stretches begin at a place or before it.
fn begun(stretches: &[Stretch], place: u64) -> usize
    requires { IsApart stretches.now }
    ensures within { result ≤ length stretches.now }
    ensures parted { IsPartitionPoint (λ stretch. stretch.begin ≤ place) (λ stretch. place < stretch.begin)
        stretches.now result }
{
    stretches.partition_point(|stretch| stretch.begin as u64 <= place)
}
