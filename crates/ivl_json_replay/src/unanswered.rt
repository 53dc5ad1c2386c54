//! Why a line has no result here.

use std::alloc::{AllocError, AllocFailed};

/// Why a call gives no answer here.
#[derive(Clone, Copy)]
pub enum Unanswered {
    /// The call is not known, an operand can't be read, or the call's condition does not hold.
    Unknown,
    /// There was no memory.
    Memory,
}

impl From<AllocError> for Unanswered {
    fn from(_: AllocError) -> Unanswered {
        Unanswered::Memory
    }
}

impl<T: Drop> From<AllocFailed<T>> for Unanswered {
    fn from(_: AllocFailed<T>) -> Unanswered {
        Unanswered::Memory
    }
}
