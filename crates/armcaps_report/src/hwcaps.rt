//! The group of hwcaps.

ghost use Rattle.std.specs.Prelude.{◌≡◌, ◌<◌, ◌++◌, OnOk, string_bytes, true};
ghost use Rattle.armcaps_hwcap.specs.Rows.{hwcap_count};
ghost use Rattle.armcaps_hwcap.specs.Words.{hwcap_word, hwcap2_word};
ghost use Rattle.armcaps_boot.specs.Causes.{hwcap_advertised};
ghost use Rattle.armcaps_boot.specs.World.{early_cores};
ghost use Rattle.armcaps_report.specs.Lines.{flag_text, word_line};
ghost use Rattle.armcaps_report.specs.Report.{flags_text, hwcap_lines};

use crate::causes::hwcap_name;
use crate::registers::push_word;
use armcaps_boot::Boot;
use armcaps_hwcap::{HWCAPS, HwSet};
use std::alloc::AllocError;
use std::fmt::Write;

/// Adds the two words of hwcaps, and their names.
pub(crate) fn push_hwcaps(text: &mut String, boot: &Boot) -> Result<(), AllocError>
    requires { boot.now.final ≡ true }
    ensures { OnOk result (string_bytes text.new ≡ string_bytes text.old
        ++ hwcap_lines (hwcap_advertised boot.now.board (early_cores boot.now.board boot.now.states))) }
{
    let set = hwcaps(boot);
    push_word_line(text, "hwcap", set.hwcap)?;
    push_word_line(text, "hwcap2", set.hwcap2)?;
    text.push_str("flags")?;
    push_flags(text, boot)?;
    text.push_str("\n")
}

// The hwcaps that are advertised.
fn hwcaps(boot: &Boot) -> HwSet
    requires { boot.now.final ≡ true }
    ensures first { result.hwcap ≡
        hwcap_word (hwcap_advertised boot.now.board (early_cores boot.now.board boot.now.states)) }
    ensures second { result.hwcap2 ≡
        hwcap2_word (hwcap_advertised boot.now.board (early_cores boot.now.board boot.now.states)) }
{
    boot.facts_hold();
    boot.hwcaps()
}

// Adds the line of a word.
#[tactic(auto, unfolding(crate::specs::Lines::word_line))]
fn push_word_line(text: &mut String, name: &str, word: u64) -> Result<(), AllocError>
    ensures { OnOk result (string_bytes text.new ≡ string_bytes text.old ++ word_line name.now word) }
{
    text.push_str(name)?;
    text.push_str(" ")?;
    push_word(text, word)?;
    text.push_str("\n")
}

// Adds the names of the hwcaps that are advertised.
#[tactic(auto, unfolding(crate::specs::Report::flags_text))]
fn push_flags(text: &mut String, boot: &Boot) -> Result<(), AllocError>
    requires { boot.now.final ≡ true }
    ensures { OnOk result (string_bytes text.new ≡ string_bytes text.old
        ++ flags_text (hwcap_advertised boot.now.board (early_cores boot.now.board boot.now.states))) }
{
    for index in 0..HWCAPS {
        push_flag(text, is_advertised(boot, index), index)?;
    }
    Ok(())
}

// Whether a hwcap is advertised.
fn is_advertised(boot: &Boot, index: usize) -> bool
    requires finalised { boot.now.final ≡ true }
    requires row { index < hwcap_count }
    ensures { result ≡ hwcap_advertised boot.now.board (early_cores boot.now.board boot.now.states) index }
{
    hwcaps(boot).contains(index)
}

// Adds a hwcap's name, where it is advertised.
fn push_flag(text: &mut String, advertised: bool, index: usize) -> Result<(), AllocError>
    ensures { OnOk result (string_bytes text.new ≡ string_bytes text.old ++ flag_text advertised index) }
{
    if advertised {
        let name = hwcap_name(index);
        write!(text, " {name}")
    } else {
        Ok(())
    }
}
