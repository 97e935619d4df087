//! The group of vector lengths.

ghost use Rattle.std.specs.Prelude.{◌≡◌, ◌<◌, ◌+◌, ◌++◌, OnOk, string_bytes, true};
ghost use Rattle.armcaps_boot.specs.Causes.{is_system_length};
ghost use Rattle.armcaps_boot.specs.Findings.{findings_of};
ghost use Rattle.armcaps_boot.specs.World.{early_cores};
ghost use Rattle.armcaps_report.specs.Lines.{length_line};
ghost use Rattle.armcaps_report.specs.Report.{length_lines};

use armcaps_boot::Boot;
use std::alloc::AllocError;
use std::fmt::Write;

/// Adds the lines of the vector lengths that programs are told of.
#[tactic(auto, unfolding(crate::specs::Report::length_lines))]
pub(crate) fn push_lengths(text: &mut String, boot: &Boot) -> Result<(), AllocError>
    requires { boot.now.final ≡ true }
    ensures { OnOk result (string_bytes text.new ≡ string_bytes text.old ++ length_lines (findings_of boot.now)) }
{
    for bit in 0..16 {
        push_length(text, is_told(boot, bit), bit + 1)?;
    }
    Ok(())
}

// Whether programs are told of the vector length of a bit.
fn is_told(boot: &Boot, bit: u32) -> bool
    requires finalised { boot.now.final ≡ true }
    requires bit { bit < 16 }
    ensures { result ≡ is_system_length boot.now.board (early_cores boot.now.board boot.now.states) (bit + 1) }
{
    boot.facts_hold();
    boot.vector_lengths() >> bit & 1 == 1
}

// Adds the line of a vector length, in bits, where programs are told of it.
fn push_length(text: &mut String, told: bool, length: u32) -> Result<(), AllocError>
    requires { length < 17 }
    ensures { OnOk result (string_bytes text.new ≡ string_bytes text.old ++ length_line told length) }
{
    if told {
        let bits = 128 * length;
        write!(text, "vl {bits}\n")
    } else {
        Ok(())
    }
}
