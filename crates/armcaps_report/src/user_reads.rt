//! How it is written what a program reads by an instruction, or why it reads nothing.

ghost use Rattle.std.specs.Prelude.{◌≡◌, ◌<◌, ◌++◌, ◌∷◌, [], IfOk, OnOk, string_bytes};
ghost use Rattle.std.specs.Char.{digit_char};
ghost use Rattle.armcaps_report.specs.Extending.{Extends};
ghost use Rattle.armcaps_report.specs.UserReads.{eight_digits, general_name, read_line, read_refused_text, value_text};
ghost use Rattle.armcaps_report.specs.declared.user_reads.ReadRefused.TheVariants as read_refused;

use crate::text::{Text, push_between};
use std::alloc::{AllocError, Global};
use std::fmt::Write;

/// Why a program reads nothing.
#[derive(Clone, Copy)]
pub enum ReadRefused {
    /// This core is not admitted.
    NotAdmitted { core: u32 },
    /// This word is no instruction that reads a register for a program.
    Undefined { word: u32 },
}

/// The line of what is read into a general-purpose register, as `x5 0x0000000000011120`; 31 is `xzr`.
pub fn read_line(alloc: Global, number: u8, value: u64) -> Result<String, AllocError>
    ensures { IfOk result (λ text. string_bytes text ≡ read_line number value) }
{
    let mut text = String::new(alloc);
    push_general_name(&mut text, number)?;
    push_value(&mut text, value)?;
    Ok(text)
}

// Adds the name of a general register.
fn push_general_name(text: &mut String, number: u8) -> Result<(), AllocError>
    ensures { OnOk result (string_bytes text.new ≡ string_bytes text.old ++ general_name number) }
{
    if number == 31 {
        text.push_str("xzr")
    } else {
        write!(text, "x{number}")
    }
}

// Adds a word after a space, and ends the line.
#[tactic(auto, using(crate::proofs::Hexadecimal::word_written))]
fn push_value(text: &mut String, value: u64) -> Result<(), AllocError>
    ensures { OnOk result (string_bytes text.new ≡ string_bytes text.old ++ value_text value) }
{
    write!(text, " 0x{value:016x}\n")
}

/// Adds why nothing is read.
pub fn push_read_refused<T: Text>(text: &mut T, refused: ReadRefused) -> Result<(), T::Error>
    ensures { Extends result T.refused_from (T.bytes text.old) (T.bytes text.new) (read_refused_text refused) }
{
    match refused {
        ReadRefused::NotAdmitted { core } => push_absence(text, core),
        ReadRefused::Undefined { word } => push_undefined(text, word),
    }
}

// Adds which core is not admitted.
#[tactic(auto, unfolding(crate::specs::UserReads::read_refused_text))]
fn push_absence<T: Text>(text: &mut T, core: u32) -> Result<(), T::Error>
    ensures { Extends result T.refused_from (T.bytes text.old) (T.bytes text.new)
        (read_refused_text (read_refused.NotAdmitted core)) }
{
    push_between(text, "core ", u64::from(core), " not admitted")
}

// Adds which word reads nothing.
#[tactic(auto, unfolding(crate::specs::UserReads::read_refused_text))]
fn push_undefined<T: Text>(text: &mut T, word: u32) -> Result<(), T::Error>
    ensures { Extends result T.refused_from (T.bytes text.old) (T.bytes text.new)
        (read_refused_text (read_refused.Undefined word)) }
{
    text.append("word 0x")?;
    push_digits(text, word)?;
    text.append(" undefined")
}

// Adds the eight hexadecimal digits of a word.
#[tactic(auto, unfolding(crate::specs::UserReads::eight_digits))]
fn push_digits<T: Text>(text: &mut T, word: u32) -> Result<(), T::Error>
    ensures { Extends result T.refused_from (T.bytes text.old) (T.bytes text.new) (eight_digits word) }
{
    text.append(digit(word >> 28 & 15))?;
    text.append(digit(word >> 24 & 15))?;
    text.append(digit(word >> 20 & 15))?;
    text.append(digit(word >> 16 & 15))?;
    text.append(digit(word >> 12 & 15))?;
    text.append(digit(word >> 8 & 15))?;
    text.append(digit(word >> 4 & 15))?;
    text.append(digit(word & 15))
}

// The hexadecimal digit of a number below 16.
fn digit(number: u32) -> &'static str
    requires { number < 16 }
    ensures { result.now ≡ digit_char number ∷ [] }
{
    const DIGITS: [&str; 16] = [
        "0", "1", "2", "3", "4", "5", "6", "7", "8", "9", "a", "b", "c", "d", "e", "f",
    ];
    DIGITS[number as usize]
}
