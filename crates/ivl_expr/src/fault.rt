//! The errors of evaluation.
use std::alloc::AllocError;
use thiserror::Error;

/// Why [`eval`](crate::eval) returned no set.
#[derive(Clone, Copy, PartialEq, Eq, Debug, Error)]
pub enum EvalFault {
    /// There is no set for the variable with this index.
    #[error("missing variable {0}")]
    Missing(usize),
    /// The set of some node has a member outside the range of the type.
    #[error("range")]
    Range,
    /// An allocation failed.
    #[error("memory")]
    Memory,
}

impl From<AllocError> for EvalFault {
    ghost use Rattle.std.specs.Prelude.{◌≡◌};
    ghost use Rattle.ivl_expr.specs.declared.fault.EvalFault.TheVariants.{Memory};

    ghost from_gives = { λ _ e. e ≡ Memory };

    fn from(_: AllocError) -> EvalFault {
        EvalFault::Memory
    }
}
