//! Sets of integers, stored as sorted runs that neither overlap nor touch, generic over the type of
//! their bounds. A run is a closed interval.
//!
//! Every [`IntervalSet`] made by public calls is the one list of maximal runs of its members, so
//! `==` compares members and `size` is their number.
//!
//! ```
//! let a = IntervalSet::new(alloc, 1, 2)?;
//! let b = IntervalSet::new(alloc, 3, 5)?;
//! let both = a.union(&b)?;                  // [1..5], one run
//! assert_eq!(rt; both.interval_count(), 1);
//! assert_eq!(rt; both.size(), 5u32);
//! ```
#![tactic(auto)]

pub use ivl_interval::{interval, kleene, ops, optional, width};

pub mod interval_set;
pub mod prelude;
pub mod steps;
pub mod sweep;

pub use interval::Interval;
pub use interval_set::IntervalSet;
