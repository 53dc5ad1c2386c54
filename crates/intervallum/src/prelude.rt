//! The types and every trait of their operations, for glob imports.
pub use crate::interval::Interval;
pub use crate::interval_set::{IntervalSet, ToIntervalSet};
pub use crate::ops::{
    Bot, Bounded, Cardinality, Collection, Complement, Contains, Difference, Disjoint, Empty,
    Entailment, Fits, Hull, Intersection, IntervalKind, IsEmpty, IsSingleton, Join, Meet, Overlap,
    ProperSubset, Range, ShrinkLeft, ShrinkRight, Singleton, StrictShrinkLeft, StrictShrinkRight,
    Subset, SymmetricDifference, ToInterval, Top, Union, Whole,
};
pub use crate::optional::Optional;
pub use crate::width::{SizeNumber, Width};
