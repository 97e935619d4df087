/// What is found of an image that is to be the patched one.
#[derive(Clone, Copy, Debug, PartialEq, Eq)]
pub enum Verdict {
    /// It is the patched image.
    Yes,
    /// It differs, and `place` is the first byte that does, counted from the image's first.
    No { place: u64 },
}
