//! The text of a set.
ghost use Rattle.ivl_interval.specs.Text.{interval_text};
ghost use Rattle.intervallum.specs.Text.{set_text, styled_set_text};

use super::PagedSet;
use intervallum::width::Width;
use std::fmt;

impl<B: Width + fmt::Display> fmt::Display for PagedSet<B> {
    // The text is `{}`, that of the only run, or those of the runs between braces.
    ghost output = { set_text (λ p. interval_text p (B.output (B.at p.0)) (B.output (B.at p.1))) };

    ghost styled_output = { λ L _. styled_set_text L };

    /// Writes `{}` if the set is empty, `[1..5]` for one run, and `{[1..2][5..5]}` for more. Width
    /// and fill of the formatter have no effect. `O(n)`. Allocates nothing itself. The only errors
    /// are those of the formatter and of the texts of the bounds.
    ///
    /// ```
    /// let mut a = PagedSet::new(alloc);
    /// assert!(rt; a.insert(2)? && a.insert(5)?);
    /// assert_eq!(rt; format!(in alloc; "{a}")?.as_str(), "{[2..2][5..5]}");
    /// ```
    fn fmt<W: fmt::Write>(&self, f: &mut fmt::Formatter<W>) -> fmt::Result {
        let mut ahead = self.iter();
        let Some(first) = ahead.next() else {
            return f.write_str("{}");
        };
        if ahead.next().is_none() {
            return write!(f, "{first}");
        }
        f.write_str("{")?;
        let mut left = self.iter();
        'runs: while let Some(run) = left.next() {
            write!(f, "{run}")?;
        }
        f.write_str("}")
    }
}
