//! The commands, and the words that name them.

ghost use Rattle.std.specs.Prelude.{◌≡◌, map, string_bytes};
ghost use Rattle.armcaps_text.specs.Numbers.{number_up_to};
ghost use Rattle.armcaps_top.specs.Commands.{bounded_number, command_named, command_of, command_of_two, core_number, demo_of, instruction_word, jump_of, mrs_of};
ghost use Rattle.armcaps_top.specs.Commands.{cores_number, seed_number};
ghost use Rattle.armcaps_top.specs.Inside.{AreCoresGiven};

pub mod ask;
pub mod audit;
pub mod demo;
pub mod elf;
pub mod jump;
pub mod mrs;
pub mod patch;
pub mod pool;
pub mod report;
pub mod trace;

use armcaps_lex::{decimal, hexadecimal};
use armcaps_text::number_up_to;

/// What is asked of a machine alone.
#[derive(Clone, Copy)]
pub enum Query {
    /// Its report.
    Report,
    /// What a program on this core reads by this instruction.
    Mrs { core: u32, word: u32 },
    /// What came of each step.
    Trace,
}

/// What the program is asked for.
#[derive(Clone, Copy)]
pub enum Command {
    /// An answer from the machine alone.
    Ask(Query),
    /// The image, patched for the machine.
    Patch,
    /// The image, patched for the machine, with the jump labels of so many entries applied, whose table begins at a
    /// place of the image.
    Jump { table: u32, count: u32 },
    /// The ELF file, patched for the machine.
    Elf,
    /// The best register set that each of several machines accepts.
    Pool,
    /// Whether a second image is the first one, patched for the machine.
    Audit,
    /// What comes of a machine with so many cores and of its image, both made from a seed.
    Demo { seed: u32, cores: u32 },
}

impl Command {
    /// The command that words are a form of.
    #[tactic(auto, unfolding(crate::specs::Commands::command_of))]
    pub fn of(words: &[String]) -> Option<Command>
        ensures command { result ≡ command_of (map string_bytes words.now) }
        ensures cores { AreCoresGiven (command_of (map string_bytes words.now)) }
    {
        match words {
            [name] => command_named(name.as_str()),
            [name, first, second] => command_of_two(name.as_str(), first.as_str(), second.as_str()),
            _ => None,
        }
    }
}

// The command of one word.
fn command_named(name: &str) -> Option<Command>
    ensures { result ≡ command_named name.now }
{
    if name == "report" {
        Some(Command::Ask(Query::Report))
    } else if name == "patch" {
        Some(Command::Patch)
    } else if name == "trace" {
        Some(Command::Ask(Query::Trace))
    } else if name == "elf" {
        Some(Command::Elf)
    } else if name == "pool" {
        Some(Command::Pool)
    } else if name == "audit" {
        Some(Command::Audit)
    } else {
        None
    }
}

// The command of a name and two arguments.
#[tactic(auto, unfolding(crate::specs::Commands::command_of_two))]
fn command_of_two(name: &str, first: &str, second: &str) -> Option<Command>
    ensures { result ≡ command_of_two name.now first.now second.now }
{
    if name == "mrs" {
        mrs_of(first.as_bytes(), second.as_bytes())
    } else if name == "demo" {
        demo_of(first.as_bytes(), second.as_bytes())
    } else if name == "jump" {
        jump_of(first.as_bytes(), second.as_bytes())
    } else {
        None
    }
}

// `mrs` of a core and an instruction.
fn mrs_of(first: &[u8], second: &[u8]) -> Option<Command>
    ensures { result ≡ mrs_of (core_number first.now) (instruction_word second.now) }
{
    let core = core_number(first)?;
    let word = instruction_word(second)?;
    Some(Command::Ask(Query::Mrs { core, word }))
}

// `demo` of a seed and a number of cores.
fn demo_of(first: &[u8], second: &[u8]) -> Option<Command>
    ensures { result ≡ demo_of (seed_number first.now) (cores_number second.now) }
{
    let seed = bounded_number(10, 0, u32::MAX, first)?;
    let cores = bounded_number(2, 1, 64, second)?;
    Some(Command::Demo { seed, cores })
}

// `jump` of a table and a number of entries.
fn jump_of(first: &[u8], second: &[u8]) -> Option<Command>
    ensures { result ≡ jump_of (number_up_to 536870912 first.now) (number_up_to 1048576 second.now) }
{
    let table = number_up_to(536_870_912, first)?;
    let count = number_up_to(1_048_576, second)?;
    Some(Command::Jump { table, count })
}

// A number of at most so many decimal digits, within these bounds.
fn bounded_number(digits: usize, least: u32, most: u32, text: &[u8]) -> Option<u32>
    ensures { result ≡ bounded_number digits least most text.now }
{
    if digits < text.len() {
        return None;
    }
    let number = decimal(text)?;
    if number < u64::from(least) || u64::from(most) < number {
        return None;
    }
    Some(number as u32)
}

// The number of a core: 1 to 9 decimal digits.
#[tactic(auto, using(crate::proofs::SmallNumbers::nine_digits))]
fn core_number(text: &[u8]) -> Option<u32>
    ensures { result ≡ core_number text.now }
{
    if text.len() >= 10 {
        return None;
    }
    let number = decimal(text)?;
    Some(number as u32)
}

// An instruction: `0x` and 1 to 8 hexadecimal digits.
#[tactic(auto, using(crate::proofs::SmallNumbers::eight_digits))]
fn instruction_word(text: &[u8]) -> Option<u32>
    ensures { result ≡ instruction_word text.now }
{
    let digits = text.strip_prefix(b"0x".as_slice())?;
    if digits.len() >= 9 {
        return None;
    }
    let word = hexadecimal(digits)?;
    Some(word as u32)
}
