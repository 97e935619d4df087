// Where a word is put, and the word.
#[derive(Clone, Copy, Debug)]
pub(crate) struct Site {
    pub(crate) place: u32,
    pub(crate) word: u32,
}
