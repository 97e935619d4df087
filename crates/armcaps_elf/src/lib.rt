//! ELF files of kernels: which of a file's sections are loaded, the flat image that they make in memory, and the file
//! with another flat image put back into it (System V ABI, "Object Files"; Linux, arch/arm64/kernel/vmlinux.lds.S).
#![tactic(auto)]

mod begin;
mod bounds;
mod checks;
mod elf;
mod fields;
mod flattening;
mod header;
mod headers;
mod laws;
mod naming;
mod ordering;
mod overlaps;
mod reading;
mod refused;
mod section;
mod stretch;
#[cfg(test)]
mod tests;
mod writing;

pub use elf::Elf;
pub use laws::{changed_byte_is_loaded, own_image_stays};
pub use refused::ElfRefused;
pub use section::Section;
