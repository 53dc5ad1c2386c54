//! What takes back a change of a network.
use intervallum::interval_set::IntervalSet;
use intervallum::width::Width;

/// What takes a change back.
#[derive(Drop)]
pub(super) enum Change<B: Width> {
    /// The domain of this variable, which was this set, was replaced.
    Domain(usize, IntervalSet<B>),
    /// A variable was added after the others.
    Variable,
    /// A rule was added after the others.
    Require,
}
