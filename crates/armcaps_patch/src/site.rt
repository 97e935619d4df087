// Where a kept entry's site is: its place in bytes, its length in words, and the entry's number among those that are
// kept.
#[derive(Clone, Copy, Debug)]
pub(crate) struct Site {
    pub(crate) place: u32,
    pub(crate) words: u8,
    pub(crate) number: u32,
}
