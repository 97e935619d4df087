// What is known of a number of the table.
#[derive(Clone, Copy, Debug)]
pub(crate) enum Choice {
    // Nothing: no entry has had it.
    Unasked,
    // Whether what it stands for is there, and None where it isn't named.
    Known(Option<bool>),
}
