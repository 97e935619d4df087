use crate::instruction::Instruction;
use std::marker::Model;

/// An alternative of an image: a feature, and the instructions that are for machines with it.
#[derive(Drop)]
pub struct Alternative {
    /// The number of the feature.
    pub number: u16,
    /// The instructions of the replacement.
    pub instructions: Vec<Instruction>,
}

impl Model for Alternative {
    ghost use Rattle.armcaps_generate.specs.Alternatives.{Alternative as Plain};

    ghost Value = { Plain };

    ghost view = { λ alternative.
        record { number = alternative.number; instructions = alternative.instructions.items } };
}
