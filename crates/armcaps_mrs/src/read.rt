/// What a program of a user gets that reads an ID register.
#[derive(Clone, Copy, Debug, PartialEq, Eq)]
pub struct UserRead {
    /// The number of the general-purpose register that gets the value, from 0 to 31; 31 is XZR.
    pub rt: u8,
    /// The value.
    pub value: u64,
}
