/// As what a core was admitted before.
#[derive(Clone, Copy, Debug, PartialEq, Eq)]
pub enum Past {
    /// It never was.
    Never,
    /// Before finalisation.
    Early,
    /// After finalisation.
    Late,
}
