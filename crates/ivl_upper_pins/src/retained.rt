//! What `retain` leaves by a test that its caller writes.
ghost use Rattle.std.specs.Prelude.{◌≡◌, OnErr, OnOk};
ghost use Rattle.std.specs.List.{filter};
ghost use Rattle.std.specs.Int.Signed.{lt_z};

use ivl_paged::paged_set::PagedSet;
use std::alloc::AllocError;

/// Keeps the runs of several numbers.
pub fn keeps_runs_of_several(set: &mut PagedSet<i32>) -> Result<(), AllocError>
    ensures kept { OnOk result (set.new ≡ filter (λ run. lt_z run.0 run.1) set.old) }
    ensures err { OnErr result (set.new ≡ set.old) }
{
    set.retain(|lower, upper| lower < upper)?;
    Ok(())
}
