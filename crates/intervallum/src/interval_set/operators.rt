//! The operators `|`, `&`, `^` and `!` of sets: the set operations under the names of the language.
//!
//! Each operand is owned or borrowed. Each call returns a new set; borrowed operands are unchanged,
//! and owned ones are consumed. Its cost, memory and errors are those of the operation that its docs
//! name. The operator `-` is the arithmetic difference and not `difference`.
ghost use Rattle.std.specs.Prelude.{IfOk};
ghost use Rattle.ivl_laws.specs.Sets.{Complement, Intersection, SymmetricDifference, Union};
ghost use Rattle.ivl_laws.specs.Runs.{Covers, IsRunsOf};

use super::IntervalSet;
use crate::ops::{Complement, Intersection, SymmetricDifference, Union};
use crate::width::Width;
use std::alloc::AllocError;
use std::ops::{BitAnd, BitOr, BitXor, Not};

impl<B: Width> BitOr<IntervalSet<B>> for IntervalSet<B> {
    type Output = Result<IntervalSet<B>, AllocError>;

    // On success, the members are exactly those of either set.
    ghost bitor_gives = { λ a b r. IfOk r (λ L. IsRunsOf L (Union (Covers a) (Covers b))) };

    /// Returns the members of either set, as `union` does, at the same cost.
    ///
    /// ```
    /// let (a, b) = (IntervalSet::new(alloc, 1, 5)?, IntervalSet::new(alloc, 4, 9)?);
    /// assert!(rt; (a | b)? == IntervalSet::new(alloc, 1, 9)?);
    /// ```
    fn bitor(self, rhs: IntervalSet<B>) -> Result<IntervalSet<B>, AllocError> {
        &self | &rhs
    }
}

impl<B: Width> BitOr<&IntervalSet<B>> for IntervalSet<B> {
    type Output = Result<IntervalSet<B>, AllocError>;

    // On success, the members are exactly those of either set.
    ghost bitor_gives = { λ a b r. IfOk r (λ L. IsRunsOf L (Union (Covers a) (Covers b.now))) };

    /// Returns the members of either set, as `union` does, at the same cost.
    fn bitor(self, rhs: &IntervalSet<B>) -> Result<IntervalSet<B>, AllocError> {
        &self | rhs
    }
}

impl<B: Width> BitOr<IntervalSet<B>> for &IntervalSet<B> {
    type Output = Result<IntervalSet<B>, AllocError>;

    // On success, the members are exactly those of either set.
    ghost bitor_gives = { λ a b r. IfOk r (λ L. IsRunsOf L (Union (Covers a.now) (Covers b))) };

    /// Returns the members of either set, as `union` does, at the same cost.
    fn bitor(self, rhs: IntervalSet<B>) -> Result<IntervalSet<B>, AllocError> {
        self | &rhs
    }
}

impl<B: Width> BitOr<&IntervalSet<B>> for &IntervalSet<B> {
    type Output = Result<IntervalSet<B>, AllocError>;

    // On success, the members are exactly those of either set.
    ghost bitor_gives = { λ a b r. IfOk r (λ L. IsRunsOf L (Union (Covers a.now) (Covers b.now))) };

    /// Returns the members of either set, as `union` does, at the same cost.
    fn bitor(self, rhs: &IntervalSet<B>) -> Result<IntervalSet<B>, AllocError> {
        self.union(rhs)
    }
}

impl<B: Width> BitAnd<IntervalSet<B>> for IntervalSet<B> {
    type Output = Result<IntervalSet<B>, AllocError>;

    // On success, the members are exactly those of both sets.
    ghost bitand_gives = { λ a b r. IfOk r (λ L. IsRunsOf L (Intersection (Covers a) (Covers b))) };

    /// Returns the members of both sets, as `intersection` does, at the same cost.
    ///
    /// ```
    /// let (a, b) = (IntervalSet::new(alloc, 1, 5)?, IntervalSet::new(alloc, 4, 9)?);
    /// assert!(rt; (a & b)? == IntervalSet::new(alloc, 4, 5)?);
    /// ```
    fn bitand(self, rhs: IntervalSet<B>) -> Result<IntervalSet<B>, AllocError> {
        &self & &rhs
    }
}

impl<B: Width> BitAnd<&IntervalSet<B>> for IntervalSet<B> {
    type Output = Result<IntervalSet<B>, AllocError>;

    // On success, the members are exactly those of both sets.
    ghost bitand_gives = { λ a b r. IfOk r (λ L. IsRunsOf L (Intersection (Covers a) (Covers b.now))) };

    /// Returns the members of both sets, as `intersection` does, at the same cost.
    fn bitand(self, rhs: &IntervalSet<B>) -> Result<IntervalSet<B>, AllocError> {
        &self & rhs
    }
}

impl<B: Width> BitAnd<IntervalSet<B>> for &IntervalSet<B> {
    type Output = Result<IntervalSet<B>, AllocError>;

    // On success, the members are exactly those of both sets.
    ghost bitand_gives = { λ a b r. IfOk r (λ L. IsRunsOf L (Intersection (Covers a.now) (Covers b))) };

    /// Returns the members of both sets, as `intersection` does, at the same cost.
    fn bitand(self, rhs: IntervalSet<B>) -> Result<IntervalSet<B>, AllocError> {
        self & &rhs
    }
}

impl<B: Width> BitAnd<&IntervalSet<B>> for &IntervalSet<B> {
    type Output = Result<IntervalSet<B>, AllocError>;

    // On success, the members are exactly those of both sets.
    ghost bitand_gives = { λ a b r. IfOk r (λ L. IsRunsOf L (Intersection (Covers a.now) (Covers b.now))) };

    /// Returns the members of both sets, as `intersection` does, at the same cost.
    fn bitand(self, rhs: &IntervalSet<B>) -> Result<IntervalSet<B>, AllocError> {
        self.intersection(rhs)
    }
}

impl<B: Width> BitXor<IntervalSet<B>> for IntervalSet<B> {
    type Output = Result<IntervalSet<B>, AllocError>;

    // On success, the members are exactly those of either set that are not in both.
    ghost bitxor_gives = { λ a b r. IfOk r (λ L. IsRunsOf L (SymmetricDifference (Covers a) (Covers b))) };

    /// Returns the members of exactly one of the sets, as `symmetric_difference` does, at the same
    /// cost.
    ///
    /// ```
    /// let (a, b) = (IntervalSet::new(alloc, 1, 5)?, IntervalSet::new(alloc, 4, 9)?);
    /// assert!(rt; (a ^ b)? == [(1, 3), (6, 9)].to_interval_set(alloc)?);
    /// ```
    fn bitxor(self, rhs: IntervalSet<B>) -> Result<IntervalSet<B>, AllocError> {
        &self ^ &rhs
    }
}

impl<B: Width> BitXor<&IntervalSet<B>> for IntervalSet<B> {
    type Output = Result<IntervalSet<B>, AllocError>;

    // On success, the members are exactly those of either set that are not in both.
    ghost bitxor_gives = { λ a b r. IfOk r (λ L. IsRunsOf L (SymmetricDifference (Covers a) (Covers b.now))) };

    /// Returns the members of exactly one of the sets, as `symmetric_difference` does, at the same
    /// cost.
    fn bitxor(self, rhs: &IntervalSet<B>) -> Result<IntervalSet<B>, AllocError> {
        &self ^ rhs
    }
}

impl<B: Width> BitXor<IntervalSet<B>> for &IntervalSet<B> {
    type Output = Result<IntervalSet<B>, AllocError>;

    // On success, the members are exactly those of either set that are not in both.
    ghost bitxor_gives = { λ a b r. IfOk r (λ L. IsRunsOf L (SymmetricDifference (Covers a.now) (Covers b))) };

    /// Returns the members of exactly one of the sets, as `symmetric_difference` does, at the same
    /// cost.
    fn bitxor(self, rhs: IntervalSet<B>) -> Result<IntervalSet<B>, AllocError> {
        self ^ &rhs
    }
}

impl<B: Width> BitXor<&IntervalSet<B>> for &IntervalSet<B> {
    type Output = Result<IntervalSet<B>, AllocError>;

    // On success, the members are exactly those of either set that are not in both.
    ghost bitxor_gives = { λ a b r. IfOk r (λ L. IsRunsOf L (SymmetricDifference (Covers a.now) (Covers b.now))) };

    /// Returns the members of exactly one of the sets, as `symmetric_difference` does, at the same
    /// cost.
    fn bitxor(self, rhs: &IntervalSet<B>) -> Result<IntervalSet<B>, AllocError> {
        self.symmetric_difference(rhs)
    }
}

impl<B: Width> Not for IntervalSet<B> {
    type Output = Result<IntervalSet<B>, AllocError>;

    // On success, the members are exactly the numbers of the range that are not in the set.
    ghost not_gives = { λ a r. IfOk r (λ L. IsRunsOf L (Complement B.whole (Covers a))) };

    /// Returns the complement within the range of the type, as `complement` does, at the same cost.
    ///
    /// ```
    /// let a = IntervalSet::new(alloc, 10u8, 254)?;
    /// assert!(rt; (!a)? == IntervalSet::new(alloc, 0, 9)?);
    /// ```
    fn not(self) -> Result<IntervalSet<B>, AllocError> {
        !&self
    }
}

impl<B: Width> Not for &IntervalSet<B> {
    type Output = Result<IntervalSet<B>, AllocError>;

    // On success, the members are exactly the numbers of the range that are not in the set.
    ghost not_gives = { λ a r. IfOk r (λ L. IsRunsOf L (Complement B.whole (Covers a.now))) };

    /// Returns the complement within the range of the type, as `complement` does, at the same cost.
    fn not(self) -> Result<IntervalSet<B>, AllocError> {
        self.complement()
    }
}
