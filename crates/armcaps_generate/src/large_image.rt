// The image of generated alternatives.
ghost use Rattle.std.specs.Prelude.{◌≡◌, ◌+◌, ◌*◌, ◌%◌, ◌^◌, ◌<◌, ◌≤◌, ◌++◌, ◌-ℤ◌, pos, IfOk, OnOk, length};
ghost use Rattle.std.specs.List.{All};
ghost use Rattle.armcaps_insn.specs.Immediates.{immediate, with_offset};
ghost use Rattle.armcaps_generate.specs.LargeImage.{entry_bytes, image_of, laid, replacement_bytes, site_bytes, slot, instruction_word, instruction_words, zeros};

use crate::alternative::Alternative;
use crate::instruction::Instruction;
use armcaps_insn::NOP;
use std::alloc::{AllocError, Global};

// BL at a place to an earlier one.
fn call(place: u32, target: u32) -> u32
    requires place { place % 4 ≡ 0 }
    requires target { target % 4 ≡ 0 }
    requires earlier { target < place }
    requires near { place < 2 ^ 26 }
    ensures { result ≡ with_offset (immediate 0x03ffffff 0 26 0 2) 0x94000000 (pos target -ℤ pos place) }
{
    0x9400_0000 | (0x0400_0000 - (place - target) / 4)
}

// ADRP X0 of a page, where it stands in another.
fn address(own: u32, page: u32) -> u32
    requires own { own < 2 ^ 20 }
    requires page { page < 2 ^ 20 }
    ensures { result ≡ with_offset (immediate 0x60ffffe0 5 19 2 12) 0x90000000 (pos (4096 * page) -ℤ pos (own * 4096)) }
{
    let pages = if page < own {
        0x20_0000 - (own - page)
    } else {
        page - own
    };
    0x9000_0000 | (pages / 4 * 32 + pages % 4 * 0x2000_0000)
}

// The word of an instruction at a place of a replacement.
#[tactic(auto, unfolding(crate::specs::LargeImage::instruction_word))]
fn instruction_word(place: u32, instruction: Instruction) -> u32
    requires aligned { place % 4 ≡ 0 }
    requires low { 1_048_576 ≤ place }
    requires high { place < 2 ^ 21 }
    ensures { result ≡ instruction_word place instruction }
{
    match instruction {
        Instruction::Move(number) => 0x5280_0000 + 32 * (number % 65_536),
        Instruction::Call(number) => call(place, 262_144 + 4 * (number % 1000)),
        Instruction::Page(number) => address(place / 4096, number % 512),
        Instruction::Nop => NOP,
    }
}

// The words of instructions from a place of a replacement on.
fn instruction_words(
    alloc: Global,
    place: u32,
    instructions: &[Instruction],
) -> Result<Vec<u32>, AllocError>
    requires aligned { place % 4 ≡ 0 }
    requires low { 1_048_576 ≤ place }
    requires high { place + 4 * length instructions.now ≤ 2 ^ 21 }
    ensures { IfOk result (λ words. words.items ≡ instruction_words place instructions.now) }
{
    let mut words = Vec::new(alloc);
    for index in 0..instructions.len() {
        words.push(instruction_word(place + 4 * index as u32, instructions[index]))?;
    }
    Ok(words)
}

// Adds zeros.
#[tactic(auto, unfolding(crate::specs::LargeImage::zeros))]
fn push_zeros(image: &mut Vec<u8>, count: usize) -> Result<(), AllocError>
    requires { count < 2 ^ 32 }
    ensures { OnOk result (image.new.items ≡ image.old.items ++ zeros count) }
{
    image.resize(image.len() + count, 0)
}

// Adds words, and zeros up to 32 bytes.
fn push_slot(image: &mut Vec<u8>, words: &[u32]) -> Result<(), AllocError>
    requires few { length words.now ≤ 8 }
    ensures { OnOk result (image.new.items ≡ image.old.items ++ slot words.now) }
{
    for word in words {
        image.extend_from_slice(&word.to_le_bytes())?;
    }
    push_zeros(image, 32 - 4 * words.len())
}

// Adds the entry of an alternative.
fn push_entry(image: &mut Vec<u8>, index: u32, alternative: &Alternative) -> Result<(), AllocError>
    requires index { index < 20_000 }
    requires few { length alternative.now.instructions ≤ 4 }
    ensures { OnOk result (image.new.items ≡ image.old.items ++ entry_bytes index alternative.now) }
{
    let entry = 12 * index;
    let site = 262_144 + 32 * index;
    let replacement = 1_048_576 + 32 * index;
    let length = 4 * alternative.instructions.len() as u8;
    image.extend_from_slice(&(site - entry).to_le_bytes())?;
    image.extend_from_slice(&(replacement - (entry + 4)).to_le_bytes())?;
    image.extend_from_slice(&alternative.number.to_le_bytes())?;
    image.extend_from_slice(&[length, length])
}

// Adds the site of an alternative.
fn push_site(
    alloc: Global,
    image: &mut Vec<u8>,
    alternative: &Alternative,
) -> Result<(), AllocError>
    requires few { length alternative.now.instructions ≤ 4 }
    ensures { OnOk result (image.new.items ≡ image.old.items ++ site_bytes 0 alternative.now) }
{
    let words = vec![in alloc; NOP; alternative.instructions.len()]?;
    push_slot(image, &words)
}

// Adds the replacement of an alternative.
fn push_replacement(
    alloc: Global,
    image: &mut Vec<u8>,
    index: u32,
    alternative: &Alternative,
) -> Result<(), AllocError>
    requires index { index < 20_000 }
    requires few { length alternative.now.instructions ≤ 4 }
    ensures { OnOk result (image.new.items ≡ image.old.items ++ replacement_bytes index alternative.now) }
{
    let words = instruction_words(alloc, 1_048_576 + 32 * index, &alternative.instructions)?;
    push_slot(image, &words)
}

// Adds the entries of alternatives.
fn push_entries(image: &mut Vec<u8>, alternatives: &[Alternative]) -> Result<(), AllocError>
    requires count { length alternatives.now ≤ 20_000 }
    requires few { All (λ alternative. length alternative.instructions ≤ 4) alternatives.now }
    ensures { OnOk result (image.new.items ≡ image.old.items ++ laid entry_bytes alternatives.now) }
{
    for index in 0..alternatives.len() {
        push_entry(image, index as u32, &alternatives[index])?;
    }
    Ok(())
}

// Adds the sites of alternatives.
fn push_sites(
    alloc: Global,
    image: &mut Vec<u8>,
    alternatives: &[Alternative],
) -> Result<(), AllocError>
    requires few { All (λ alternative. length alternative.instructions ≤ 4) alternatives.now }
    ensures { OnOk result (image.new.items ≡ image.old.items ++ laid site_bytes alternatives.now) }
{
    for index in 0..alternatives.len() {
        push_site(alloc, image, &alternatives[index])?;
    }
    Ok(())
}

// Adds the replacements of alternatives.
fn push_replacements(
    alloc: Global,
    image: &mut Vec<u8>,
    alternatives: &[Alternative],
) -> Result<(), AllocError>
    requires count { length alternatives.now ≤ 20_000 }
    requires few { All (λ alternative. length alternative.instructions ≤ 4) alternatives.now }
    ensures { OnOk result (image.new.items ≡ image.old.items ++ laid replacement_bytes alternatives.now) }
{
    for index in 0..alternatives.len() {
        push_replacement(alloc, image, index as u32, &alternatives[index])?;
    }
    Ok(())
}

/// The image of alternatives, of which there are 20,000.
pub fn image_of(alloc: Global, alternatives: &[Alternative]) -> Result<Vec<u8>, AllocError>
    requires count { length alternatives.now ≤ 20_000 }
    requires few { All (λ alternative. length alternative.instructions ≤ 4) alternatives.now }
    ensures { IfOk result (λ image. image.items ≡ image_of alternatives.now) }
{
    let mut image = Vec::with_capacity(alloc, 2_097_152)?;
    push_entries(&mut image, alternatives)?;
    push_zeros(&mut image, 22_144)?;
    push_sites(alloc, &mut image, alternatives)?;
    push_zeros(&mut image, 146_432)?;
    push_replacements(alloc, &mut image, alternatives)?;
    push_zeros(&mut image, 408_576)?;
    Ok(image)
}
