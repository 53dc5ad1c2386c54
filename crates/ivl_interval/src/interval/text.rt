//! The text of an interval.
ghost use Rattle.ivl_interval.specs.Text.{interval_text, styled_interval_text};

use crate::interval::Interval;
use crate::ops::IsEmpty;
use crate::width::Width;
use std::fmt;

impl<B: Width + fmt::Display> fmt::Display for Interval<B> {
    // The text is `{}` if the bounds cross, else the two bounds as in `[1..5]`.
    ghost output = { λ p. interval_text p (B.output (B.at p.0)) (B.output (B.at p.1)) };

    ghost styled_output = { λ p _. styled_interval_text p };

    /// Writes `{}` if the interval is empty, else the two bounds as in `[1..5]`. Width and fill of
    /// the formatter have no effect.
    ///
    /// The only errors are those of the formatter and of the texts of the bounds.
    ///
    /// ```
    /// let a = Interval::new(1i32, 5);
    /// assert_eq!(rt; format!(in alloc; "{a}")?.as_str(), "[1..5]");
    /// ```
    fn fmt<W: fmt::Write>(&self, f: &mut fmt::Formatter<W>) -> fmt::Result {
        if self.is_empty() {
            f.write_str("{}")
        } else {
            write!(f, "[{}..{}]", self.lb, self.ub)
        }
    }
}
