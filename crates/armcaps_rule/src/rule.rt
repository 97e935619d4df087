//! The names of the four rules.

/// How the values of one field become one value (Linux, `enum ftr_type`).
#[derive(Clone, Copy, Debug, PartialEq, Eq)]
pub enum Rule {
    /// The common value where all are equal, and else the field's safe value.
    Exact,
    /// The least value.
    Lower,
    /// The greatest value.
    Higher,
    /// 0 where 0 occurs, and else the greatest value.
    HigherOrZero,
}
