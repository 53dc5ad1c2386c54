//! Linear rules of any length between variables, and what narrowing by one leaves of their domains: see [`linear`].
//!
//! ```
//! // 3 * x - 2 * y <= 4, for x from 0 to 9 and y from 0 to 5
//! let mut domains = vec![in alloc; IntervalSet::new(alloc, 0, 9)?, IntervalSet::new(alloc, 0, 5)?]?;
//! let terms = [Term { coefficient: 3, variable: 0 }, Term { coefficient: -2, variable: 1 }];
//! assert!(rt; narrow(&mut domains, &terms, Relation::AtMost(4))?);
//! assert!(rt; domains[0] == IntervalSet::new(alloc, 0, 4)? && domains[1] == IntervalSet::new(alloc, 0, 5)?);
//! ```
#![tactic(auto)]

pub mod linear;
