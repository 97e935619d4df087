//! The groups of system registers, as they are and as users see them, and of those that vary.

ghost use Rattle.std.specs.Prelude.{◌≡◌, ◌++◌, OnOk, string_bytes};
ghost use Rattle.armcaps_sanit.specs.System.{system_word};
ghost use Rattle.armcaps_sanit.specs.Users.{user_word};
ghost use Rattle.armcaps_boot.specs.Findings.{findings_of};
ghost use Rattle.armcaps_boot.specs.World.{admitted_cores};
ghost use Rattle.armcaps_report.specs.Lines.{register_line, user_line, varies_line};
ghost use Rattle.armcaps_report.specs.Report.{register_lines, user_lines, varies_lines};
ghost use Rattle.armcaps_report.specs.Texts.{word_text};

use crate::varying::varies_among;
use armcaps_boot::Boot;
use armcaps_enc::SysReg;
use std::alloc::AllocError;
use std::fmt::Write;

/// Adds the line of a system register with its word.
pub fn push_register(text: &mut String, register: SysReg, word: u64) -> Result<(), AllocError>
    ensures { OnOk result (string_bytes text.new ≡ string_bytes text.old ++ register_line register word) }
{
    let name = register.name();
    write!(text, "reg {name} ")?;
    push_word(text, word)?;
    text.push_str("\n")
}

/// Adds a word: `0x` and 16 lower-case hexadecimal digits.
#[tactic(auto, using(crate::proofs::Hexadecimal::word_written))]
pub(crate) fn push_word(text: &mut String, word: u64) -> Result<(), AllocError>
    ensures { OnOk result (string_bytes text.new ≡ string_bytes text.old ++ word_text word) }
{
    write!(text, "0x{word:016x}")
}

// Adds the line of a register as users see it.
fn push_user_word(text: &mut String, register: SysReg, word: u64) -> Result<(), AllocError>
    ensures { OnOk result (string_bytes text.new ≡ string_bytes text.old ++ user_line register word) }
{
    let name = register.name();
    write!(text, "user {name} ")?;
    push_word(text, word)?;
    text.push_str("\n")
}

// Adds the line of a register, where it varies.
fn push_variation(text: &mut String, register: SysReg, varies: bool) -> Result<(), AllocError>
    ensures { OnOk result (string_bytes text.new ≡ string_bytes text.old ++ varies_line register varies) }
{
    if varies {
        let name = register.name();
        write!(text, "varies {name}\n")
    } else {
        Ok(())
    }
}

/// Adds the lines of the system registers.
pub(crate) fn push_registers(text: &mut String, boot: &Boot) -> Result<(), AllocError>
    ensures { OnOk result (string_bytes text.new ≡ string_bytes text.old ++ register_lines (findings_of boot.now)) }
{
    for register in SysReg::TRACKED {
        push_register(text, register, system_word(boot, register))?;
    }
    Ok(())
}

// A system register's word.
fn system_word(boot: &Boot, register: SysReg) -> u64
    ensures { result ≡ system_word boot.now.board.overrides (admitted_cores boot.now.board boot.now.states) register }
{
    boot.system().word(register)
}

/// Adds the lines of the system registers as users see them.
pub(crate) fn push_user_words(text: &mut String, boot: &Boot) -> Result<(), AllocError>
    ensures { OnOk result (string_bytes text.new ≡ string_bytes text.old ++ user_lines (findings_of boot.now)) }
{
    for register in SysReg::TRACKED {
        push_user_word(text, register, user_word(boot, register))?;
    }
    Ok(())
}

// A system register's word as users see it.
fn user_word(boot: &Boot, register: SysReg) -> u64
    ensures { result ≡ user_word boot.now.board.overrides (admitted_cores boot.now.board boot.now.states) register }
{
    boot.system().user_word(register)
}

/// Adds the lines of the registers that vary.
pub(crate) fn push_variations(text: &mut String, boot: &Boot) -> Result<(), AllocError>
    ensures { OnOk result (string_bytes text.new ≡ string_bytes text.old ++ varies_lines (findings_of boot.now)) }
{
    for register in SysReg::TRACKED {
        push_variation(text, register, varies_among(boot, register))?;
    }
    Ok(())
}
