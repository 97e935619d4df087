//! What overrides come to.

/// What an override of a field comes to on the boot core.
#[derive(Clone, Copy, Debug, PartialEq, Eq)]
pub enum Note {
    /// There is no override.
    None,
    /// The override changes the field's value.
    Forced,
    /// Merging the override with the boot core's value doesn't give it back, so it is not taken.
    Ignored,
    /// The boot core has the override's value already.
    Already,
}
