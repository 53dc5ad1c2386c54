//! The operation of a list of images.

/// The operation that `images` applies.
///
/// ```
/// let a = IntervalSet::new(alloc, 1, 2)?;
/// assert!(rt; a.fits_mul(&a), "the products fit");
/// let products = images(&a, &a, Op::Product)?;
/// assert!(rt; coalesce(alloc, products)? == IntervalSet::new(alloc, 1, 4)?);
/// ```
#[derive(Clone, Copy, PartialEq, Eq, Debug)]
pub enum Op {
    /// The first plus the second.
    Sum,
    /// The first minus the second.
    Difference,
    /// The first times the second.
    Product,
}
