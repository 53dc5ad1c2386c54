//! Equality of sets.
ghost use Rattle.std.specs.Prelude.{◌≡◌, ◌↔◌, IsTrue};
ghost use Rattle.ivl_laws.specs.Sets.{SameMembers};
ghost use Rattle.ivl_laws.specs.Runs.{Covers, IsMaximal};
ghost use Rattle.intervallum.specs.Equality.{same_runs};
ghost use Rattle.intervallum.specs.EqualityLaws.{same_runs_equiv, same_runs_laws};

use super::PagedSet;
use super::iter::Runs;
use intervallum::width::Width;

impl<B: Width> PartialEq for PagedSet<B> {
    ghost eq = { same_runs };

    ghost laws = { same_runs_laws };

    /// Returns true exactly when both sets have the same members, whatever their pages. `O(n)`.
    /// Does not allocate.
    ///
    /// ```
    /// let (mut a, mut b) = (PagedSet::new(alloc), PagedSet::new(alloc));
    /// assert!(rt; a.insert(3)? && a.insert(4)?);
    /// b.insert_interval(Interval::new(3, 4))?;
    /// assert!(rt; a == b);
    /// ```
    fn eq(&self, other: &PagedSet<B>) -> bool
        // True exactly when both sets have the same members.
        ensures value { result ≡ same_runs self.now other.now }
        ensures members { IsTrue result ↔ SameMembers (Covers self.now) (Covers other.now) }
    {
        are_the_same(self.iter(), other.iter())
    }
}

impl<B: Width> Eq for PagedSet<B> {
    ghost laws = { same_runs_equiv };
}

/// Returns true exactly when the same runs are left.
fn are_the_same<B: Width>(mut a: Runs<'_, B>, mut b: Runs<'_, B>) -> bool
    requires left { IsMaximal a }
    requires right { IsMaximal b }
    ensures { IsTrue result ↔ (a.entry ≡ b.entry) }
{
    'runs: while let Some(run) = a.next() {
        let is_same = match b.next() {
            Some(other) => run == other,
            None => false,
        };
        if !is_same {
            return false;
        }
    }
    b.next().is_none()
}
