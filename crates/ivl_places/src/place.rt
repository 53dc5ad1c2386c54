//! The place of a value among runs.

/// The place of a value among runs numbered from 0, as `find` returns it.
///
/// ```
/// let a: IntervalSet<i32> = [(1, 2), (5, 6)].to_interval_set(alloc)?;
/// let mut probes = Probes::new(&a);
/// assert_eq!(rt; find(&mut probes, 3), Place::Gap(1));
/// ```
#[derive(Clone, Copy, PartialEq, Eq, Debug)]
pub enum Place {
    /// In the run of this number.
    In(usize),
    /// In no run, above this many of them and below the others.
    Gap(usize),
}
