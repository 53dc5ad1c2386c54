//! Values that are read, and values that are refused.

use super::{check_fault, check_read};
use intervallum::{Interval, IntervalSet};
use ivl_json::json::{ItemFault, JsonFault};

// A JSON text, and the text that what is read is printed as.
type Read = (&'static str, &'static str);

// A JSON text, and the fault that it is refused for.
type Refused = (&'static str, JsonFault);

const INTERVALS: [Read; 5] = [
    ("[3,8]", "[3..8]"),
    ("[5,5]", "[5..5]"),
    ("[-1, -1]", "[-1..-1]"),
    ("null", "{}"),
    ("[8,3]", "{}"),
];

#[test]
fn intervals(rt: HostRuntime) {
    check_read::<Interval<i32>>(&rt, &INTERVALS);
}

const SHAPE_BEFORE_LENGTH: [Refused; 5] = [
    ("true", JsonFault::Shape),
    ("7", JsonFault::Shape),
    ("\"[1,2]\"", JsonFault::Shape),
    ("{\"0\":1,\"1\":2}", JsonFault::Shape),
    ("[]", JsonFault::Length(0)),
];

#[test]
fn shape_before_length(rt: HostRuntime) {
    check_fault::<Interval<i32>>(&rt, &SHAPE_BEFORE_LENGTH);
}

const LENGTH_BEFORE_ELEMENTS: [Refused; 4] = [
    ("[10,20,30]", JsonFault::Length(3)),
    ("[10,20,30,40,50]", JsonFault::Length(5)),
    ("[\"a\"]", JsonFault::Length(1)),
    ("[null,true,{}]", JsonFault::Length(3)),
];

#[test]
fn length_before_elements(rt: HostRuntime) {
    check_fault::<Interval<i32>>(&rt, &LENGTH_BEFORE_ELEMENTS);
}

const FIRST_ELEMENT_BEFORE_SECOND: [Refused; 3] = [
    ("[300,\"x\"]", JsonFault::Range),
    ("[\"x\",300]", JsonFault::Number),
    ("[0,\"x\"]", JsonFault::Number),
];

#[test]
fn first_element_before_second(rt: HostRuntime) {
    check_fault::<Interval<u8>>(&rt, &FIRST_ELEMENT_BEFORE_SECOND);
    check_fault::<Interval<i32>>(&rt, &[("[null,1]", JsonFault::Number)]);
}

const NO_WHOLE_NUMBERS: [Refused; 5] = [
    ("[1.0,2]", JsonFault::Number),
    ("[-0,2]", JsonFault::Number),
    ("[1,1e2]", JsonFault::Number),
    ("[\"1\",2]", JsonFault::Number),
    ("[[1],2]", JsonFault::Number),
];

// Each has a number that is one too far for 64 bits.
const ABOVE_64_BITS: [Refused; 1] = [("[0,18446744073709551616]", JsonFault::Number)];

const BELOW_64_BITS: [Refused; 1] = [("[-9223372036854775809,0]", JsonFault::Number)];

#[test]
fn numbers_that_are_not_whole(rt: HostRuntime) {
    check_fault::<Interval<i32>>(&rt, &NO_WHOLE_NUMBERS);
    check_fault::<Interval<u64>>(&rt, &ABOVE_64_BITS);
    check_fault::<Interval<i64>>(&rt, &BELOW_64_BITS);
}

const OUTSIDE_U8: [Refused; 3] = [
    ("[0,255]", JsonFault::Range),
    ("[255,0]", JsonFault::Range),
    ("[-1,3]", JsonFault::Range),
];

const OUTSIDE_I8: [Refused; 1] = [("[-128,0]", JsonFault::Range)];

const OUTSIDE_U64: [Refused; 1] = [("[0,18446744073709551615]", JsonFault::Range)];

const ENDS_OF_U8: [Read; 1] = [("[0,254]", "[0..254]")];

const ENDS_OF_I8: [Read; 2] = [("[127,-127]", "{}"), ("[-127,127]", "[-127..127]")];

const ENDS_OF_U64: [Read; 1] = [("[0,18446744073709551614]", "[0..18446744073709551614]")];

#[test]
fn ends_of_the_ranges(rt: HostRuntime) {
    check_fault::<Interval<u8>>(&rt, &OUTSIDE_U8);
    check_fault::<Interval<i8>>(&rt, &OUTSIDE_I8);
    check_fault::<Interval<u64>>(&rt, &OUTSIDE_U64);
    check_read::<Interval<u8>>(&rt, &ENDS_OF_U8);
    check_read::<Interval<i8>>(&rt, &ENDS_OF_I8);
    check_read::<Interval<u64>>(&rt, &ENDS_OF_U64);
}

const SETS: [Read; 4] = [
    ("[[1,3],[2,8],null,[9,4]]", "[1..8]"),
    ("null", "{}"),
    ("[]", "{}"),
    ("[null,[3,1]]", "{}"),
];

const SETS_OF_U8: [Read; 1] = [("[[8,9],[1,2],[3,4]]", "{[1..4][8..9]}")];

const SETS_OF_U64: [Read; 1] = [("[[0,18446744073709551614]]", "[0..18446744073709551614]")];

#[test]
fn sets(rt: HostRuntime) {
    check_read::<IntervalSet<i32>>(&rt, &SETS);
    check_read::<IntervalSet<u8>>(&rt, &SETS_OF_U8);
    check_read::<IntervalSet<u64>>(&rt, &SETS_OF_U64);
}

const NO_SETS: [Refused; 4] = [
    ("7", JsonFault::Shape),
    ("{}", JsonFault::Shape),
    ("[1,5]", JsonFault::At(0, ItemFault::Shape)),
    ("[[1,2],[3],\"x\"]", JsonFault::At(1, ItemFault::Length(1))),
];

const NO_SETS_OF_U8: [Refused; 1] = [(
    "[[1,2],null,[255,0],[]]",
    JsonFault::At(2, ItemFault::Range),
)];

const NO_SETS_OF_I8: [Refused; 1] = [("[[1,\"2\"]]", JsonFault::At(0, ItemFault::Number))];

#[test]
fn sets_that_are_refused(rt: HostRuntime) {
    check_fault::<IntervalSet<i32>>(&rt, &NO_SETS);
    check_fault::<IntervalSet<u8>>(&rt, &NO_SETS_OF_U8);
    check_fault::<IntervalSet<i8>>(&rt, &NO_SETS_OF_I8);
}
