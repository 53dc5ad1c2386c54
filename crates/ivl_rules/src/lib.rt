//! Rules between two or three variables, and what narrowing by one leaves of their domains: see [`rules`].
//!
//! ```
//! // x + 3 <= y, for x and y from 0 to 9
//! let mut domains = vec![in alloc; IntervalSet::new(alloc, 0, 9)?, IntervalSet::new(alloc, 0, 9)?]?;
//! let before = Rule::AtMost { x: 0, y: 1, by: 3 };
//! assert!(rt; narrow(&mut domains, &before)?);
//! assert!(rt; domains[0] == IntervalSet::new(alloc, 0, 6)? && domains[1] == IntervalSet::new(alloc, 3, 9)?);
//! ```
#![tactic(auto)]

pub mod rules;
