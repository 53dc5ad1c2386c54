//! Domains and rules between them that are added one by one: see [`network`].
//!
//! ```
//! // x + 3 <= y, for x and y from 0 to 9
//! let mut network: Network<i32> = Network::new(alloc);
//! let x = network.add_variable(IntervalSet::new(alloc, 0, 9)?)?;
//! let y = network.add_variable(IntervalSet::new(alloc, 0, 9)?)?;
//! network.require(Rule::AtMost { x, y, by: 3 })?;
//! assert_eq!(rt; network.settle(10)?, Settled::All);
//! assert!(rt; network.domains()[x] == IntervalSet::new(alloc, 0, 6)?);
//! ```
#![tactic(auto)]

pub mod network;
