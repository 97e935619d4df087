//! How it is written what `demo` counts of a machine and its image.

ghost use Rattle.std.specs.Prelude.{◌≡◌, IfOk, string_bytes};
ghost use Rattle.armcaps_report.specs.Demo.{demo_lines};

use std::alloc::{AllocError, Global};
use std::fmt::Write;

/// What is counted of a machine and its image.
#[derive(Clone, Copy)]
pub struct Counts {
    /// The cores that are admitted.
    pub admitted: u32,
    /// The cores that are held back.
    pub parked: u32,
    /// The entries that are selected.
    pub selected: u32,
    /// The words that the sites of these cover.
    pub covered: u32,
    /// The words that are another in the patched image.
    pub changed: u32,
    /// The sum of the words of the patched image.
    pub sum: u64,
}

/// The five lines of `demo`, by its words and what is counted.
pub fn demo_lines(
    alloc: Global,
    seed: u32,
    cores: u32,
    counts: &Counts,
) -> Result<String, AllocError>
    ensures { IfOk result (λ text. string_bytes text ≡ demo_lines seed cores counts.now) }
{
    let mut text = String::new(alloc);
    write!(text, "armcaps demo {seed} {cores}\n")?;
    write!(
        text,
        "admitted {} parked {}\n",
        counts.admitted, counts.parked
    )?;
    write!(text, "entries 20000 selected {}\n", counts.selected)?;
    write!(
        text,
        "words {} changed {}\n",
        counts.covered, counts.changed
    )?;
    write!(text, "sum {}\n", counts.sum)?;
    Ok(text)
}
