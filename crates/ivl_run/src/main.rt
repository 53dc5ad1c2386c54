//! A calculator of sets of whole numbers, with 26 registers: reads one command per line from standard input, and prints
//! one answer line for each.
#![tactic(auto)]

#[cfg(test)]
mod tests;

use ivl_lines::{Program, SessionFault, run};
use std::io::{Read, Write};
use std::process::ExitCode;

const HELP: &str = "\
The registers a to z hold sets of i64: reads one line at a time from standard input, and answers each.

  set r l u l u ..     r becomes the union of the pairs     union r a b    inter r a b    diff r a b    sym r a b
  comp r a             the complement                       left r a v     right r a v    at least v, at most v
  plus r a b           the sums of their members            sleft r a v    sright r a v   above v, below v
  minus r a b          the differences                      plusv r a v    minusv r a v   timesv r a v
  times r a b          the products, run by run             has a v        size a         count a
  same a b             whether they are equal               low a          high a         show a
  sub a b              whether a is a subset of b           meets a b      whether they share a member

--version prints the version.
";

/// The lines of this program.
pub struct Lines;

impl Program for Lines {
    const NAME: &'static str = "ivl_run";

    fn session<R: Read, W: Write>(
        rt: &HostRuntime,
        reader: &mut R,
        writer: &mut W,
    ) -> Result<(), SessionFault> {
        ivl_calculator_lines::session(rt.alloc(), reader, writer)
    }
}

fn main(rt: HostRuntime) -> ExitCode {
    run::<Lines>(&rt, HELP)
}
