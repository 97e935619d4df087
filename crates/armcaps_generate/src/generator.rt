// Machines with large images, made from a number.
ghost use Rattle.std.specs.Prelude.{◌≡◌, ◌-◌, ◌≤◌, ◌++◌, IfOk, OnOk, map};
ghost use Rattle.std.specs.List.{range_with_len};
ghost use Rattle.armcaps_board.specs.declared.step_line.StepLine.TheVariants.{Online};
ghost use Rattle.armcaps_generate.specs.Cores.{generated_board, generated_steps};
ghost use Rattle.armcaps_generate.specs.LargeImage.{generated_image};

use crate::draws::{Draws, core_for};
use crate::large_image::image_of;
use armcaps_board::{Board, StepLine};
use armcaps_cmdline::parse;
use std::alloc::{AllocError, Global};

/// How many alternatives the image has.
pub const ALTERNATIVES: u32 = 20_000;

/// How many bytes the image has.
pub const IMAGE_LENGTH: u32 = 2_097_152;

/// What is made from a number.
#[derive(Drop)]
pub struct Generated {
    /// The cores, of which the first is the boot core; no value stands in for a field.
    pub board: Board,
    /// The steps by which the others come up.
    pub steps: Vec<StepLine>,
    /// The image, with the table of its alternatives at its begin.
    pub image: Vec<u8>,
}

// Brings up the cores from one up to another.
fn push_online(steps: &mut Vec<StepLine>, from: u32, to: u32) -> Result<(), AllocError>
    requires { from ≤ to }
    ensures { OnOk result (steps.new.items ≡ steps.old.items ++ map Online (range_with_len from (to - from))) }
{
    for core in from..to {
        steps.push(StepLine::Online(core))?;
    }
    Ok(())
}

// The steps of so many cores.
#[tactic(auto, unfolding(crate::specs::Cores::generated_steps))]
fn make_steps(alloc: Global, cores: u32) -> Result<Vec<StepLine>, AllocError>
    requires some { 1 ≤ cores }
    requires few { cores ≤ 64 }
    ensures { IfOk result (λ steps. steps.items ≡ generated_steps cores) }
{
    let late = cores / 2 + 1;
    let mut steps = Vec::new(alloc);
    push_online(&mut steps, 1, late)?;
    steps.push(StepLine::Finalise)?;
    push_online(&mut steps, late, cores.max(late))?;
    Ok(steps)
}

/// So many cores, 1 to 64, with their steps, and an image of 2,097,152 bytes with 20,000 alternatives, made from a
/// seed. They are the same at each call.
pub fn generate(alloc: Global, seed: u32, cores: u32) -> Result<Generated, AllocError>
    requires some { 1 ≤ cores }
    requires few { cores ≤ 64 }
    ensures board { IfOk result (λ made. made.board ≡ generated_board seed cores) }
    ensures steps { IfOk result (λ made. made.steps.items ≡ generated_steps cores) }
    ensures image { IfOk result (λ made. made.image.items ≡ generated_image seed cores) }
{
    let mut draws = Draws {
        state: u64::from(seed) + 1,
    };
    let mut all = Vec::new(alloc);
    all.push(core_for(0))?;
    draws.push_cores(&mut all, cores - 1)?;
    let alternatives = draws.alternatives(alloc, ALTERNATIVES)?;
    Ok(Generated {
        board: Board {
            cores: all,
            boot: 0,
            overrides: parse(b""),
        },
        steps: make_steps(alloc, cores)?,
        image: image_of(alloc, &alternatives)?,
    })
}
