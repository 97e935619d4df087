/// Where the table of alternatives lies in an image (Linux, section `.altinstructions`).
#[derive(Clone, Copy, Debug, PartialEq, Eq)]
pub struct Layout {
    /// The offset of the first entry from the image's first byte.
    pub table: u32,
    /// How many entries of twelve bytes there are.
    pub count: u32,
}
