//! Searches for solutions, whose points were worked out by hand.

use intervallum::interval_set::IntervalSet;
use ivl_search::search::{End, Limits, SearchFault, count, solutions, try_solutions};
use ivl_store::store::Constraint;
use std::alloc::{AllocError, Global};

/// More than the searches need.
const AMPLE: Limits = Limits {
    solutions: 10,
    nodes: 1000,
};

/// Whether the search of this name gives the right answer; none where there is no such call.
pub fn call(alloc: Global, name: &str) -> Option<Result<bool, AllocError>> {
    Some(match name {
        "search_solutions" => finds_three(alloc),
        "search_count" => counts_three(alloc),
        "search_try_solutions" => finds_none_twice_named(alloc),
        _ => return None,
    })
}

/// x and y from 0 to 2, z 3 or 4.
fn domains(alloc: Global) -> Result<Vec<IntervalSet<i32>>, AllocError> {
    let low = IntervalSet::new(alloc, 0, 2)?;
    Ok(vec![in alloc; low.try_clone()?, low, IntervalSet::new(alloc, 3, 4)?]?)
}

/// The constraint x + y = z.
const SUM: Constraint = Constraint { x: 0, y: 1, z: 2 };

/// Whether all points are found: 1 + 2 = 3, 2 + 1 = 3 and 2 + 2 = 4.
fn finds_three(alloc: Global) -> Result<bool, AllocError> {
    let found = refused(solutions(alloc, &domains(alloc)?, &[SUM], AMPLE))?;
    let points = &found.points;
    Ok(found.end == End::All && points.len() == 3 && points.iter().all(|point| is_solution(point)))
}

/// Whether the numbers of a point add up, and lie in the domains.
fn is_solution(point: &[i32]) -> bool {
    matches!(point, [1, 2, 3] | [2, 1, 3] | [2, 2, 4])
}

/// Whether the points are counted.
fn counts_three(alloc: Global) -> Result<bool, AllocError> {
    Ok(refused(count(alloc, &domains(alloc)?, &[SUM], AMPLE))? == (3, End::All))
}

/// Whether a constraint that names a variable twice is told, and another one is searched.
fn finds_none_twice_named(alloc: Global) -> Result<bool, AllocError> {
    let twice = Constraint { x: 0, y: 0, z: 2 };
    let none = refused(try_solutions(alloc, &domains(alloc)?, &[twice], AMPLE))?;
    let some = refused(try_solutions(alloc, &domains(alloc)?, &[SUM], AMPLE))?;
    Ok(none.is_none() && some.is_some())
}

/// The fault of a search that found no memory, which is the only one here.
fn refused<T>(answer: Result<T, SearchFault>) -> Result<T, AllocError> {
    answer.map_err(|_| AllocError)
}
