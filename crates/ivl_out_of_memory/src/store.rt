//! The calls of a store that allocate. Each returns its result, or runs out of memory and leaves
//! the domains that its docs promise.

use crate::runs::{Runs, has_runs};
use intervallum::prelude::{Interval, IntervalSet, ToIntervalSet};
use ivl_store::store::{Constraint, Post, Store, StoreFault};
use std::alloc::{AllocError, Global};

/// The runs of x, y, z and one; x + y = z, and y + one = z.
type Family = [Runs; 4];

const SUM: Constraint = Constraint { x: 0, y: 1, z: 2 };

const NEXT: Constraint = Constraint { x: 1, y: 3, z: 2 };

const FRESH: &Family = &[
    &[(0, 3), (8, 9)],
    &[(0, 1), (4, 9)],
    &[(2, 6), (20, 30)],
    &[(1, 1)],
];

/// The domains once `SUM` has narrowed them.
const NARROWED: &Family = &[&[(0, 3)], &[(0, 1), (4, 6)], &[(2, 6)], &[(1, 1)]];

/// The domains once `NEXT` has narrowed those.
const ROUND: &Family = &[&[(0, 3)], &[(1, 1), (4, 5)], &[(2, 2), (5, 6)], &[(1, 1)]];

/// The domains once `SUM` has narrowed those, which nothing narrows any further.
const FIXED: &Family = &[&[(0, 2)], &[(1, 1), (4, 5)], &[(2, 2), (5, 6)], &[(1, 1)]];

const UNCHANGED: &[&Family] = &[FRESH];

/// The domains that two constraints pass on their way.
const PASSED: &[&Family] = &[FRESH, NARROWED, ROUND, FIXED];

/// The numbers to which z is cut.
const ALLOWED: [(i32, i32); 1] = [(-5, 5)];

/// The domains once z is cut to these numbers after `SUM` has narrowed them.
const CUT: &Family = &[&[(0, 3)], &[(0, 1), (4, 6)], &[(2, 5)], &[(1, 1)]];

/// The domains once `SUM` has narrowed those.
const CUT_NARROWED: &Family = &[&[(0, 3)], &[(0, 1), (4, 5)], &[(2, 5)], &[(1, 1)]];

/// The domains once `NEXT` has narrowed those.
const CUT_ROUND: &Family = &[&[(0, 3)], &[(1, 1), (4, 4)], &[(2, 2), (5, 5)], &[(1, 1)]];

/// The domains once `SUM` has narrowed those, which nothing narrows any further.
const CUT_FIXED: &Family = &[&[(1, 1)], &[(1, 1), (4, 4)], &[(2, 2), (5, 5)], &[(1, 1)]];

/// The domains that the posts pass on their way, each with the first request for memory, the operands' among them,
/// that leaves them if it is refused.
const POSTED: [(u32, &Family); 5] = [
    (0, FRESH),
    (14, NARROWED),
    (15, CUT),
    (16, CUT_NARROWED),
    (18, CUT_ROUND),
];

/// How many posts the longest list has.
const MANY: usize = 1000;

/// How the call of this name ended, to whose request of this number memory may be refused; none where there is no
/// such call.
pub fn ending(alloc: Global, name: &str, refused: u32) -> Option<Result<&'static str, AllocError>> {
    match name {
        "store_add_variable" => Some(added(alloc)),
        "store_narrow" => Some(narrowed(alloc)),
        "store_propagate" => Some(propagated(alloc)),
        "store_post_all" => Some(posted(alloc, refused)),
        "store_post_many" => Some(posted_many(alloc)),
        _ => None,
    }
}

/// A fourth variable is added.
fn added(alloc: Global) -> Result<&'static str, AllocError> {
    let (three, fourth) = (&FRESH[..3], FRESH[3]);
    let mut store = store_of(alloc, three)?;
    match store.add_variable(set_of(alloc, fourth)?) {
        Ok(3) if has_domains(&store, FRESH) => Ok("answered"),
        Ok(_) => Ok("gave a wrong answer"),
        Err(_) if has_domains(&store, three) => Ok("out of memory"),
        Err(_) => Ok("left other domains"),
    }
}

/// One constraint narrows the domains once.
fn narrowed(alloc: Global) -> Result<&'static str, AllocError> {
    let mut store = store_of(alloc, FRESH)?;
    let answer = store.narrow(&SUM);
    Ok(judged(
        &store,
        answer == Ok(true),
        is_refusal(&answer),
        NARROWED,
        UNCHANGED,
    ))
}

/// Two constraints narrow the domains until neither does.
fn propagated(alloc: Global) -> Result<&'static str, AllocError> {
    let mut store = store_of(alloc, FRESH)?;
    let answer = store.propagate(&[SUM, NEXT], 9);
    Ok(judged(
        &store,
        answer == Ok(true),
        is_refusal(&answer),
        FIXED,
        PASSED,
    ))
}

/// Two constraints and a cut that removes members are posted together. A refused request leaves the domains as they
/// were before it, and no earlier ones.
fn posted(alloc: Global, refused: u32) -> Result<&'static str, AllocError> {
    let mut store = store_of(alloc, FRESH)?;
    let answer = store.try_post_all(&posts(alloc)?);
    Ok(judged(
        &store,
        are_replies(&answer, &[false, false, false]),
        is_refusal(&answer),
        CUT_FIXED,
        &[passed_by(refused)],
    ))
}

fn posts(alloc: Global) -> Result<Vec<Post<i32>>, AllocError> {
    let cut = ALLOWED.to_interval_set(alloc)?;
    Ok(vec![in alloc;
        Post::Require(SUM),
        Post::Restrict(2, cut),
        Post::Require(NEXT),
    ]?)
}

/// The domains that the posts have reached when this request is made.
fn passed_by(request: u32) -> &'static Family {
    for &(first, family) in POSTED.iter().rev() {
        if first <= request {
            return family;
        }
    }
    FRESH
}

/// The variable one is cut to no number, over and over.
fn posted_many(alloc: Global) -> Result<&'static str, AllocError> {
    let mut store = store_of(alloc, FRESH)?;
    let mut posts = Vec::with_capacity(alloc, MANY)?;
    for _ in 0..MANY {
        posts.push(Post::Restrict(3, IntervalSet::empty(alloc)))?;
    }
    let answer = store.try_post_all(&posts);
    let [x, y, z, _] = *FRESH;
    Ok(judged(
        &store,
        are_replies(&answer, &[true; MANY]),
        is_refusal(&answer),
        &[x, y, z, &[]],
        UNCHANGED,
    ))
}

/// The posts were answered by these replies.
fn are_replies(answer: &Result<Option<Vec<bool>>, StoreFault>, wanted: &[bool]) -> bool {
    match answer {
        Ok(Some(replies)) => replies.as_slice() == wanted,
        _ => false,
    }
}

/// The call was refused because an allocation failed.
fn is_refusal<T>(answer: &Result<T, StoreFault>) -> bool {
    match answer {
        Err(StoreFault::Memory) => true,
        _ => false,
    }
}

/// How a call ended that leaves `after` with its answer, and one of `between` where it is refused.
fn judged(
    store: &Store<i32>,
    is_right: bool,
    is_refusal: bool,
    after: &Family,
    between: &[&Family],
) -> &'static str {
    if is_refusal {
        return if between.iter().any(|family| has_domains(store, *family)) {
            "out of memory"
        } else {
            "left other domains"
        };
    }
    if is_right && has_domains(store, after) {
        "answered"
    } else {
        "gave a wrong answer"
    }
}

/// The domains have these runs.
fn has_domains(store: &Store<i32>, family: &[Runs]) -> bool {
    for (domain, runs) in store.domains().iter().zip(family) {
        if !has_runs(domain, runs) {
            return false;
        }
    }
    store.domains().len() == family.len()
}

/// The store of these domains.
fn store_of(alloc: Global, family: &[Runs]) -> Result<Store<i32>, AllocError> {
    let mut domains: Vec<IntervalSet<i32>> = Vec::with_capacity(alloc, family.len())?;
    for runs in family {
        domains.push(set_of(alloc, runs)?)?;
    }
    Ok(Store::new(alloc, domains))
}

/// The set of these pairs; none where one is out of range.
fn set_of(alloc: Global, pairs: &[(i32, i32)]) -> Result<IntervalSet<i32>, AllocError> {
    if !pairs
        .iter()
        .all(|&(lower, upper)| Interval::in_range(lower, upper))
    {
        return Ok(IntervalSet::empty(alloc));
    }
    pairs.to_interval_set(alloc)
}
