//! The JSON text of intervals and sets.

use super::{check_written, made};
use intervallum::interval_set::ToIntervalSet;
use intervallum::ops::{Empty, Range, Whole};
use intervallum::{Interval, IntervalSet};

#[test]
fn intervals(rt: HostRuntime) {
    check_written(&rt, &Interval::new(3i32, 5), "[3,5]");
    check_written(&rt, &Interval::<i32>::empty(), "null");
    check_written(&rt, &Interval::new(8i32, 3), "null");
    check_written(&rt, &Interval::<i8>::whole(), "[-127,127]");
    let whole = Interval::<u64>::whole();
    check_written(&rt, &whole, "[0,18446744073709551614]");
}

#[test]
fn sets(rt: HostRuntime) {
    let alloc = rt.alloc();
    let one: IntervalSet<i32> = made(&rt, (3, 5).to_interval_set(alloc));
    check_written(&rt, &one, "[[3,5]]");
    let two: IntervalSet<i32> = made(&rt, [(8, 9), (4, 4)].to_interval_set(alloc));
    check_written(&rt, &two, "[[4,4],[8,9]]");
    check_written(&rt, &IntervalSet::<i32>::empty(alloc), "null");
    let whole = made(&rt, IntervalSet::<u8>::whole(alloc));
    check_written(&rt, &whole, "[[0,254]]");
}
