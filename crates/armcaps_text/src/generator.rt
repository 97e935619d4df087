// Machines with large images, made from a number.
ghost use Rattle.std.specs.Prelude.{◌≡◌, ◌≤◌, IfOk};
ghost use Rattle.armcaps_generate.specs.LargeImage.{generated_image};
ghost use Rattle.armcaps_text.specs.Document.{reading_of};
ghost use Rattle.armcaps_text.specs.Generator.{generated_names, generated_reading};

use crate::machine::Machine;
use armcaps_alt::{Conduit, Layout, Named, Names};
use armcaps_caps::CAPABILITIES;
use armcaps_generate::{ALTERNATIVES, Generated, IMAGE_LENGTH};
use std::alloc::{AllocError, Global};

// The names of the numbers: each capability by its own.
fn make_names(alloc: Global) -> Result<Names, AllocError>
    ensures { IfOk result (λ names. names ≡ generated_names) }
{
    let mut numbers = Vec::new(alloc);
    for number in 0..CAPABILITIES {
        numbers.push((number, Named::Cap(number)))?;
    }
    Ok(Names::new(numbers, Vec::new(alloc), Conduit::None))
}

/// A machine of so many cores, 1 to 64, and its image of 2,097,152 bytes with 20,000 alternatives, made from a seed.
/// It is the same at each call.
pub fn generate(alloc: Global, seed: u32, cores: u32) -> Result<(Machine, Vec<u8>), AllocError>
    requires some { 1 ≤ cores }
    requires few { cores ≤ 64 }
    ensures reading { IfOk result (λ made. reading_of made.0 ≡ generated_reading seed cores) }
    ensures image { IfOk result (λ made. made.1.items ≡ generated_image seed cores) }
{
    let Generated {
        board,
        steps,
        image,
    } = armcaps_generate::generate(alloc, seed, cores)?;
    let machine = Machine {
        board,
        steps,
        names: make_names(alloc)?,
        layout: Layout {
            table: 0,
            count: ALTERNATIVES,
        },
        image: IMAGE_LENGTH,
    };
    Ok((machine, image))
}
