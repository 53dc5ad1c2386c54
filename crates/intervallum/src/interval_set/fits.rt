//! Whether the results of arithmetic of sets are in the range.
//!
//! Each call reads only the ends of the sets, since the least and the greatest result are results
//! of ends. No call allocates.
ghost use Rattle.ivl_laws.specs.Sets.{Only};
ghost use Rattle.ivl_laws.specs.Runs.{Covers};

use super::IntervalSet;
use crate::ops::Fits;
use crate::width::Width;

impl<B: Width> Fits<IntervalSet<B>> for IntervalSet<B> {
    ghost whole = { B.whole };

    ghost members = { Covers };

    ghost other_members = { Covers };

    /// Returns true exactly when `self + other` may be called, so always if a set is empty. `O(1)`.
    /// Does not allocate.
    ///
    /// ```
    /// let a = IntervalSet::new(alloc, 100i8, 100)?;
    /// assert!(rt; a.fits_add(&IntervalSet::new(alloc, 27, 27)?));
    /// assert!(rt; !a.fits_add(&IntervalSet::new(alloc, 28, 28)?));
    /// ```
    fn fits_add(&self, other: &IntervalSet<B>) -> bool {
        self.hull().fits_add(&other.hull())
    }

    /// Returns true exactly when `self - other` may be called, so always if a set is empty. `O(1)`.
    /// Does not allocate.
    ///
    /// ```
    /// let a = IntervalSet::new(alloc, 3u8, 5)?;
    /// assert!(rt; a.fits_sub(&IntervalSet::new(alloc, 0, 3)?));
    /// assert!(rt; !a.fits_sub(&IntervalSet::new(alloc, 4, 4)?));
    /// ```
    fn fits_sub(&self, other: &IntervalSet<B>) -> bool {
        self.hull().fits_sub(&other.hull())
    }

    /// Returns true exactly when `self * other` may be called, so always if a set is empty. `O(1)`.
    /// Does not allocate.
    ///
    /// ```
    /// let a = IntervalSet::new(alloc, 100i8, 100)?;
    /// assert!(rt; a.fits_mul(&IntervalSet::new(alloc, -1, 1)?));
    /// assert!(rt; !a.fits_mul(&IntervalSet::new(alloc, 2, 2)?));
    /// ```
    fn fits_mul(&self, other: &IntervalSet<B>) -> bool {
        self.hull().fits_mul(&other.hull())
    }
}

impl<B: Width> Fits<B> for IntervalSet<B> {
    ghost whole = { B.whole };

    ghost members = { Covers };

    ghost other_members = { λ x. Only (B.value x) };

    /// Returns true exactly when `self + *other` may be called; `other` may be outside the range.
    /// `O(1)`. Does not allocate.
    ///
    /// ```
    /// let a = IntervalSet::new(alloc, 100i8, 100)?;
    /// assert!(rt; a.fits_add(&27) && !a.fits_add(&28));
    /// ```
    fn fits_add(&self, other: &B) -> bool {
        self.hull().fits_add(other)
    }

    /// Returns true exactly when `self - *other` may be called; `other` may be outside the range.
    /// `O(1)`. Does not allocate.
    ///
    /// ```
    /// let a = IntervalSet::new(alloc, 3u8, 5)?;
    /// assert!(rt; a.fits_sub(&3) && !a.fits_sub(&4));
    /// ```
    fn fits_sub(&self, other: &B) -> bool {
        self.hull().fits_sub(other)
    }

    /// Returns true exactly when `self * *other` may be called; `other` may be outside the range.
    /// `O(1)`. Does not allocate.
    ///
    /// ```
    /// let a = IntervalSet::new(alloc, 100i8, 100)?;
    /// assert!(rt; a.fits_mul(&1) && !a.fits_mul(&2));
    /// ```
    fn fits_mul(&self, other: &B) -> bool {
        self.hull().fits_mul(other)
    }
}
