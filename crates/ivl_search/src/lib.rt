//! All solutions of constraints `x + y = z` over finite domains, and the best one: see [`search`].
//!
//! ```
//! // x + y = z, for x and y from 0 to 2 and z 3 or 4: three points
//! let low = IntervalSet::new(alloc, 0, 2)?;
//! let domains = vec![in alloc; low.try_clone()?, low, IntervalSet::new(alloc, 3, 4)?]?;
//! let constraints = [Constraint { x: 0, y: 1, z: 2 }];
//! let limits = Limits { solutions: 100, nodes: 100_000 };
//! let found = solutions(alloc, &domains, &constraints, limits)?;
//! assert_eq!(rt; found.end, End::All);
//! assert_eq!(rt; found.points.len(), 3);
//! ```
#![tactic(auto)]

pub mod search;
