//! When two people can meet: a first program with sets, which docs/FIRST-CRATE.md takes step by step.
#![tactic(auto)]

mod meeting;

use anyhow::Result;
use intervallum::prelude::*;
use meeting::{busy_hours, first_meeting, free_hours};

fn main(rt: HostRuntime) -> Result<()> {
    let alloc = rt.alloc();
    let anna = [(9, 10), (13, 14)].to_interval_set(alloc)?;
    let ben = [(8, 8), (11, 11), (15, 17)].to_interval_set(alloc)?;
    let busy = busy_hours(&anna, &ben)?;
    println!(rt; "busy {busy}")?;
    let free = free_hours(Interval::new(8, 17), &busy)?;
    match first_meeting(&free, 1) {
        Some(hours) => println!(rt; "meet {hours}")?,
        None => println!(rt; "no hour is free for both")?,
    }
    Ok(())
}
