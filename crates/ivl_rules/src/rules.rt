//! Rules between variables, which are named by their indexes.
//!
//! A [`Rule`] says something of the numbers of two or three variables. [`narrowing::narrow`] takes from the domains
//! of its variables what is in no point that satisfies it: of different variables, it leaves a member exactly if some
//! point of the domains has it. [`laws`] has what a search or a network needs of that, for each rule alike.
//!
//! There is no rule for a factor, as `3 * x = y`: what it leaves of `y` may be a run for each member of `x`. Write
//! it by sums: `x + x1 = x2` and `x2 + x = y`, where a `Shifted` by 0 holds `x1` equal to `x`.
ghost use Rattle.std.specs.Prelude.{◌≡◌, ◌↔◌, IsTrue, None};
ghost use Rattle.ivl_store.specs.Narrowing.{AllPresent, first_unknown as first_unknown_in};
ghost use Rattle.ivl_rules.specs.Rules.{AreDifferent, NamesOf, needs_singles, places as places_of};

pub mod laws;
pub mod narrowing;
pub mod windows;

use ivl_store::store::Constraint;

/// What is said of the numbers of two or three variables. A shift `by` is added to the number of `x`.
#[derive(Clone, Copy, Debug, PartialEq, Eq)]
pub enum Rule {
    /// `x + y = z`.
    Sum(Constraint),
    /// `x + by = y`.
    Shifted { x: usize, y: usize, by: i64 },
    /// `x + by <= y`.
    AtMost { x: usize, y: usize, by: i64 },
    /// `x + by != y`.
    Differs { x: usize, y: usize, by: i64 },
}

impl Rule {
    /// Returns the variables of the rule, in order. A rule of two variables has its second at both `y` and `z`. `O(1)`,
    /// does not allocate.
    ///
    /// ```
    /// let before = Rule::AtMost { x: 4, y: 2, by: 0 };
    /// assert!(rt; before.places() == Constraint { x: 4, y: 2, z: 2 });
    /// ```
    pub fn places(&self) -> Constraint
        // The result is the variables of the rule, in order; a rule of two variables has its second at both `y` and
        // `z`.
        ensures { result ≡ places_of self.now }
    {
        match self {
            Rule::Sum(c) => *c,
            Rule::Shifted { x, y, by: _ } => pair(*x, *y),
            Rule::AtMost { x, y, by: _ } => pair(*x, *y),
            Rule::Differs { x, y, by: _ } => pair(*x, *y),
        }
    }

    /// Returns true exactly when the rule names each of its variables once. `O(1)`, does not allocate.
    ///
    /// ```
    /// assert!(rt; Rule::Differs { x: 0, y: 1, by: 0 }.is_over_different());
    /// assert!(rt; !Rule::Differs { x: 1, y: 1, by: 5 }.is_over_different());
    /// ```
    pub fn is_over_different(&self) -> bool
        // True exactly when the rule names each of its variables once.
        ensures { IsTrue result ↔ AreDifferent self.now }
    {
        match self {
            Rule::Sum(c) => c.distinct(),
            Rule::Shifted { x, y, by: _ } => *x != *y,
            Rule::AtMost { x, y, by: _ } => *x != *y,
            Rule::Differs { x, y, by: _ } => *x != *y,
        }
    }

    /// Returns true exactly for a rule that takes members only for a variable whose domain is a single number or
    /// empty: `Differs`. `O(1)`, does not allocate.
    ///
    /// ```
    /// assert!(rt; Rule::Differs { x: 0, y: 1, by: 5 }.needs_single_numbers());
    /// assert!(rt; !Rule::AtMost { x: 0, y: 1, by: 5 }.needs_single_numbers());
    /// ```
    pub fn needs_single_numbers(&self) -> bool
        // True exactly for a `Differs`.
        ensures { result ≡ needs_singles self.now }
    {
        match self {
            Rule::Sum(_) => false,
            Rule::Shifted { x: _, y: _, by: _ } => false,
            Rule::AtMost { x: _, y: _, by: _ } => false,
            Rule::Differs { x: _, y: _, by: _ } => true,
        }
    }

    /// Returns true exactly when the rule names the variable. `O(1)`, does not allocate.
    ///
    /// ```
    /// assert!(rt; Rule::Shifted { x: 0, y: 3, by: 1 }.names(3));
    /// ```
    pub fn names(&self, variable: usize) -> bool
        // True exactly when the rule names the variable.
        ensures { IsTrue result ↔ NamesOf self.now variable }
    {
        let c = self.places();
        variable == c.x || variable == c.y || variable == c.z
    }

    /// Returns the first variable of the rule that is not below `count`, or `None` if all are. `O(1)`, does not
    /// allocate.
    ///
    /// ```
    /// let rule = Rule::Shifted { x: 0, y: 3, by: 1 };
    /// assert!(rt; rule.first_unknown(3) == Some(3) && rule.first_unknown(4) == None);
    /// ```
    pub fn first_unknown(&self, count: usize) -> Option<usize>
        // The result is the first variable of the rule, in order, that is not below `count`, or `None` if all are.
        ensures first { result ≡ first_unknown_in count (places_of self.now) }
        ensures present { result ≡ None → AllPresent count (places_of self.now) }
    {
        self.places().first_unknown(count)
    }
}

fn pair(x: usize, y: usize) -> Constraint
    ensures { result ≡ record { x = x; y = y; z = y } }
{
    Constraint { x, y, z: y }
}
