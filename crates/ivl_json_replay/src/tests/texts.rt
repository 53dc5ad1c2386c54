//! The texts of the faults.

use super::check_printed;
use ivl_json::json::{ItemFault, JsonFault};

const OF_ITEMS: [(ItemFault, &str); 4] = [
    (ItemFault::Shape, "shape"),
    (ItemFault::Length(3), "length 3"),
    (ItemFault::Number, "number"),
    (ItemFault::Range, "range"),
];

#[test]
fn of_items(rt: HostRuntime) {
    for (fault, text) in &OF_ITEMS {
        check_printed(&rt, fault, text);
    }
}

const OF_VALUES: [(JsonFault, &str); 7] = [
    (JsonFault::Shape, "shape"),
    (JsonFault::Length(0), "length 0"),
    (JsonFault::Number, "number"),
    (JsonFault::Range, "range"),
    (JsonFault::Memory, "memory"),
    (JsonFault::At(2, ItemFault::Range), "item 2: range"),
    (
        JsonFault::At(0, ItemFault::Length(18446744073709551615)),
        "item 0: length 18446744073709551615",
    ),
];

#[test]
fn of_values(rt: HostRuntime) {
    for (fault, text) in &OF_VALUES {
        check_printed(&rt, fault, text);
    }
}
