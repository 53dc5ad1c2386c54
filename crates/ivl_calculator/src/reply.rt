//! The replies.
use intervallum::interval::Interval;
use intervallum::width::Width;
use thiserror::Error;

/// Why a command was refused: the first reason in this order. The registers are unchanged.
#[derive(Clone, Copy, Debug, PartialEq, Eq, Error)]
pub enum Refusal {
    /// There is no register with some index.
    #[error("refused 1 register")]
    Register,
    /// A pair is not in the range of the bounds.
    #[error("refused 2 range")]
    Range,
    /// A product, or a result with a value, is outside the range. `Plus` and `Minus` of two
    /// registers are cut to the range instead.
    #[error("refused 3 fit")]
    Fit,
    /// An allocation failed. Only `Show` and the commands that write a register allocate.
    #[error("refused 4 memory")]
    Memory,
}

/// What a command answers.
#[derive(Debug, PartialEq, Eq, Drop)]
pub enum Reply<B: Width> {
    /// A register was written.
    Done,
    /// A register was written with the sums or differences that are in the range; true if some are
    /// not.
    Cut(bool),
    /// The answer to a yes-or-no question.
    Flag(bool),
    /// The number of members.
    Size(B::Output),
    /// The number of runs.
    Count(usize),
    /// The least or the greatest member; `None` if the register is empty.
    Value(Option<B>),
    /// The runs, ascending.
    Runs(Vec<Interval<B>>),
    /// The command was refused, and all registers are unchanged.
    Refused(Refusal),
}
