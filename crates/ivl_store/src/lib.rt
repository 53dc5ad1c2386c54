//! A store of finite domains, narrowed by constraints `x + y = z`: see [`store`].
//!
//! ```
//! // x + y = z, for x, y and z from 0 to 9; then z is 0 or 1, and then x is 2 or 3
//! let domains = vec![in alloc;
//!     IntervalSet::new(alloc, 0, 9)?, IntervalSet::new(alloc, 0, 9)?, IntervalSet::new(alloc, 0, 9)?]?;
//! let mut store: Store<i32> = Store::new(alloc, domains);
//! let sum = Post::Require(Constraint { x: 0, y: 1, z: 2 });
//! let cut = Post::Restrict(2, IntervalSet::new(alloc, 0, 1)?);
//! let another = Post::Restrict(0, IntervalSet::new(alloc, 2, 3)?);
//! // after each post, whether a domain is empty
//! let replies = store.post_all(&vec![in alloc; sum, cut, another]?)?;
//! assert!(rt; replies == vec![in alloc; false, false, true]?);
//! ```
#![tactic(auto)]

pub mod store;
