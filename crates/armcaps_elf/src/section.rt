/// A section of an ELF file of 64 bits that is loaded and has bytes in the file (System V ABI, "Sections").
#[derive(Clone, Copy, Debug, PartialEq, Eq)]
pub struct Section {
    /// The address of its first byte, `sh_addr`.
    pub address: u64,
    /// The offset in bytes of its first byte from the file's first byte, `sh_offset`.
    pub place: u64,
    /// How many bytes it has, `sh_size`.
    pub size: u64,
}
