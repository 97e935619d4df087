/// An instruction of a replacement, with the number that was drawn for it.
#[derive(Clone, Copy)]
pub enum Instruction {
    /// MOVZ of a number.
    Move(u32),
    /// BL to a word among the sites.
    Call(u32),
    /// ADRP of a page.
    Page(u32),
    /// NOP.
    Nop,
}
