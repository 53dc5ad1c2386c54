//! How a rule relates two variables.

/// What a rule says of the numbers of two variables, the first of which is shifted.
#[derive(Clone, Copy)]
pub enum Relation {
    /// `x + by = y`.
    Shifted,
    /// `x + by <= y`.
    AtMost,
    /// `x + by != y`.
    Differs,
}
