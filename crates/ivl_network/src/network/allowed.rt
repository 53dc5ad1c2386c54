//! What a domain is cut to: a set or an interval.
ghost use Rattle.std.specs.Prelude.{ℤ, IfOk};
ghost use Rattle.ivl_laws.specs.Runs.{Covers};
ghost use Rattle.ivl_laws.specs.Sets.{IsBetween};
ghost use Rattle.ivl_store.specs.NarrowedSets.{IsLeftOf};

use intervallum::interval::Interval;
use intervallum::interval_set::IntervalSet;
use intervallum::width::Width;
use ivl_rules::rules::windows::narrowed_to_window_in;
use ivl_store::store::Spares;
use ivl_store::store::narrowed_sets::narrowed_to;
use std::alloc::AllocError;

/// Numbers to which a domain is cut.
pub(super) trait Allowed<B: Width> {
    /// The numbers that stay.
    ghost members: { Self → ℤ → Type 0 };

    /// Returns what is left of a domain, or `None` if all of it is.
    fn left_of(
        &self,
        domain: &IntervalSet<B>,
        spares: &mut Spares<B>,
    ) -> Result<Option<IntervalSet<B>>, AllocError>
        ensures { IfOk result (IsLeftOf B.whole domain.now (members self.now)) };
}

impl<B: Width> Allowed<B> for IntervalSet<B> {
    ghost members = { Covers };

    fn left_of(
        &self,
        domain: &IntervalSet<B>,
        _spares: &mut Spares<B>,
    ) -> Result<Option<IntervalSet<B>>, AllocError> {
        narrowed_to(domain, self)
    }
}

impl<B: Width> Allowed<B> for Interval<B> {
    ghost members = { IsBetween };

    fn left_of(
        &self,
        domain: &IntervalSet<B>,
        spares: &mut Spares<B>,
    ) -> Result<Option<IntervalSet<B>>, AllocError> {
        narrowed_to_window_in(domain, *self, spares)
    }
}
