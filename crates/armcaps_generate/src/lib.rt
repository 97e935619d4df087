//! Machines with large images, made from a number.
#![tactic(auto)]

mod alternative;
mod draws;
mod generator;
mod instruction;
mod large_image;
#[cfg(test)]
mod tests;

pub use generator::{ALTERNATIVES, Generated, IMAGE_LENGTH, generate};
