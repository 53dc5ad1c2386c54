//! Three-valued truth.

/// The result of a test that may be undecided, such as [`entail`](crate::ops::Entailment).
///
/// ```
/// let (a, b) = (Interval::new(1i32, 5), Interval::new(4, 9));
/// assert_eq!(rt; a.entail(&b), SKleene::Unknown);
/// ```
#[derive(Clone, Copy, PartialEq, Eq, Debug)]
pub enum SKleene {
    /// True.
    True,
    /// False.
    False,
    /// Neither.
    Unknown,
}
