/// How an instruction takes an address from the place where it stands.
#[derive(Clone, Copy, Debug, PartialEq, Eq)]
pub enum Class {
    /// A branch with an offset of 26 bits: B, BL.
    Jump26,
    /// A branch with an offset of 19 bits: B.cond, BC.cond, CBZ, CBNZ.
    Jump19,
    /// A branch with an offset of 14 bits: TBZ, TBNZ.
    Jump14,
    /// The address of a page of 4096 bytes: ADRP.
    Page,
    /// An address that isn't followed here: ADR, a literal load, a branch of the miscellaneous group.
    Literal,
    /// Any other instruction.
    Other,
}
