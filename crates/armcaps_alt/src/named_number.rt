/// What a number of the table stands for on a machine.
#[derive(Clone, Copy, Debug, PartialEq, Eq)]
pub enum Named {
    /// The capability of this number.
    Cap(u16),
    /// A feature of which the machine's description says whether it is there.
    Given(bool),
}
