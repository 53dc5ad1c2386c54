//! What intervals print.
ghost use Rattle.std.specs.Prelude.{◌≡◌, ◌≤ℤ◌, ◌++◌, Some, IfOk, codes, string_bytes};
ghost use Rattle.ivl_laws.specs.Sets.{IsCrossed};

use ivl_interval::interval::Interval;
use ivl_interval::width::Width;
use std::alloc::{AllocError, Global};
use std::fmt::Display;

/// Returns the texts of the two bounds in brackets, with two dots between them.
pub fn text_of_filled<B: Width + Display>(
    alloc: Global,
    a: &Interval<B>,
) -> Result<String, AllocError>
    requires { a.now.0 ≤ℤ a.now.1 }
    ensures { (lower : _) (upper : _) → B.output (B.at a.now.0) ≡ Some lower → B.output (B.at a.now.1) ≡ Some upper →
        IfOk result (λ text. string_bytes text ≡ codes "[" ++ lower ++ codes ".." ++ upper ++ codes "]") }
{
    format!(in alloc; "{a}")
}

/// Returns the text `{}`.
pub fn text_of_crossed<B: Width + Display>(
    alloc: Global,
    a: &Interval<B>,
) -> Result<String, AllocError>
    requires { IsCrossed a.now }
    ensures { IfOk result (λ text. string_bytes text ≡ codes "{}") }
{
    format!(in alloc; "{a}")
}

/// Returns the range of `i8`, as text.
pub fn text_of_whole_of_i8(alloc: Global) -> Result<String, AllocError>
    ensures { IfOk result (λ text. string_bytes text ≡ codes "[-127..127]") }
{
    let whole = crate::ranges::whole_of_i8();
    format!(in alloc; "{whole}")
}
