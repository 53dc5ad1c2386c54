//! The examples of the docs.

use super::{check_all, check_fault, check_printed, check_same, check_written, made, value_of};
use intervallum::interval_set::ToIntervalSet;
use intervallum::ops::{Empty, Range};
use intervallum::{Interval, IntervalSet};
use ivl_json::json::{ItemFault, JsonFault, JsonForm};
use std::alloc::{AllocError, Global};
use std::process::Abort;

/// What a JSON text reads as.
fn read<T: JsonForm + Drop>(rt: &(impl Alloc<A = Global> + Abort), text: &str) -> T {
    T::from_value(rt.alloc(), &value_of(rt, text)).expect(rt, "the text is not refused")
}

#[test]
fn from_text_to_text(rt: HostRuntime) {
    let set: IntervalSet<u8> = read(&rt, "[[3, 5], [1, 2]]");
    check_written(&rt, &set, "[[1,5]]");
    let set: IntervalSet<i32> = read(&rt, "[[1, 3], [2, 8], null, [9, 4]]");
    check_written(&rt, &set, "[[1,8]]");
    check_same(&rt, &set, &made(&rt, IntervalSet::new(rt.alloc(), 1, 8)));
}

#[test]
fn written(rt: HostRuntime) {
    check_written(&rt, &Interval::new(3, 8), "[3,8]");
    check_written(&rt, &Interval::<i32>::empty(), "null");
    let pairs = [(8, 9), (4, 4)].to_interval_set(rt.alloc());
    let set: IntervalSet<i32> = made(&rt, pairs);
    check_written(&rt, &set, "[[4,4],[8,9]]");
}

#[test]
fn refused(rt: HostRuntime) {
    check_fault::<Interval<u8>>(&rt, &[("[255, 0]", JsonFault::Range)]);
    check_fault::<Interval<i32>>(&rt, &[("[10, 20, 30]", JsonFault::Length(3))]);
    let second = JsonFault::At(1, ItemFault::Length(1));
    check_fault::<IntervalSet<i32>>(&rt, &[("[[1, 2], [3]]", second)]);
}

#[test]
fn faults(rt: HostRuntime) {
    check_printed(&rt, &ItemFault::Length(3), "length 3");
    check_printed(&rt, &JsonFault::At(2, ItemFault::Range), "item 2: range");
    let converted = [
        JsonFault::from(ItemFault::Length(3)),
        JsonFault::from(AllocError),
    ];
    check_all(&rt, &converted, &[JsonFault::Length(3), JsonFault::Memory]);
}
