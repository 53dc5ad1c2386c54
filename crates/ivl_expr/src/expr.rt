//! Expressions, and their evaluation by [`eval`].
ghost use Rattle.std.specs.Prelude.{◌≡◌, ◌↔◌, IsTrue};
ghost use Rattle.ivl_expr.specs.Variables.{HasProduct, Occurs, ReadOnce, ShareVariable, first_missing};

pub use crate::fault::EvalFault;
pub use crate::nodes::eval;

/// An expression: sums, differences and products of variables and constants.
///
/// A variable is the index of its set in the slice that is passed to [`eval`](crate::eval). A
/// constant may be any value of the type; `eval` fails for one outside the range.
///
/// The calls of an expression, and dropping one, recurse: they use stack in proportion to its
/// depth, so an expression that is built in a loop can overflow the stack. [`eval`] uses most. A
/// stack of 2 MB, that of a thread of Rust, bears 1,000 levels in a build without optimization, and
/// 8,000 with it; one of 8 MB bears 4,000, and 16,000.
///
/// ```
/// // (x0 + x1) - 3
/// let sum = Expr::Add(Box::new(alloc, Expr::Var(0))?, Box::new(alloc, Expr::Var(1))?);
/// let less = Expr::Sub(Box::new(alloc, sum)?, Box::new(alloc, Expr::Const(3i32))?);
/// assert!(rt; less.occurs(1) && less.read_once() && !less.has_product());
/// ```
#[derive(Drop)]
pub enum Expr<B> {
    /// The variable with this index.
    Var(usize),
    /// A constant.
    Const(B),
    /// The sum of the two.
    Add(Box<Expr<B>>, Box<Expr<B>>),
    /// The first less the second.
    Sub(Box<Expr<B>>, Box<Expr<B>>),
    /// The product of the two.
    Mul(Box<Expr<B>>, Box<Expr<B>>),
}

impl<B> Expr<B> {
    /// Returns true exactly when variable `i` occurs. Linear in the nodes, does not allocate.
    ///
    /// ```
    /// let sum = Expr::Add(Box::new(alloc, Expr::Var(3))?, Box::new(alloc, Expr::Const(5i32))?);
    /// assert!(rt; sum.occurs(3) && !sum.occurs(5));
    /// ```
    pub fn occurs(&self, i: usize) -> bool
        // True exactly when the variable occurs in the expression.
        ensures { IsTrue result ↔ Occurs i self.now }
    {
        match self {
            Expr::Var(j) => *j == i,
            Expr::Const(_) => false,
            Expr::Add(a, b) | Expr::Sub(a, b) | Expr::Mul(a, b) => a.occurs(i) || b.occurs(i),
        }
    }

    /// Returns true exactly when no variable occurs twice. Then both ends of each run that
    /// [`eval`](crate::eval) returns are values.
    ///
    /// Compares each variable with the nodes on its right at most once: at worst `O(v n)` for `v`
    /// variables and `n` nodes. Does not allocate.
    ///
    /// ```
    /// let sum = Expr::Add(Box::new(alloc, Expr::Var(0))?, Box::new(alloc, Expr::Var(1))?);
    /// assert!(rt; sum.read_once());
    /// let less_first = Expr::Sub(Box::new(alloc, sum)?, Box::new(alloc, Expr::<i32>::Var(0))?);
    /// assert!(rt; !less_first.read_once());
    /// ```
    pub fn read_once(&self) -> bool
        // True exactly when no variable occurs twice.
        ensures { IsTrue result ↔ ReadOnce self.now }
    {
        match self {
            Expr::Var(_) | Expr::Const(_) => true,
            Expr::Add(a, b) | Expr::Sub(a, b) | Expr::Mul(a, b) => {
                a.read_once() && b.read_once() && !a.shares(b)
            }
        }
    }

    /// Returns true exactly when a product occurs. Linear in the nodes, does not allocate.
    ///
    /// ```
    /// let product = Expr::Mul(Box::new(alloc, Expr::Var(0))?, Box::new(alloc, Expr::Const(2i32))?);
    /// let sum = Expr::Add(Box::new(alloc, product)?, Box::new(alloc, Expr::Var(1))?);
    /// assert!(rt; sum.has_product());
    /// ```
    pub fn has_product(&self) -> bool
        // True exactly when a product occurs in the expression.
        ensures { IsTrue result ↔ HasProduct self.now }
    {
        match self {
            Expr::Var(_) | Expr::Const(_) => false,
            Expr::Add(a, b) | Expr::Sub(a, b) => a.has_product() || b.has_product(),
            Expr::Mul(_, _) => true,
        }
    }

    /// Returns true exactly when some variable occurs in both.
    fn shares(&self, other: &Expr<B>) -> bool
        ensures { IsTrue result ↔ ShareVariable self.now other.now }
    {
        match self {
            Expr::Var(i) => other.occurs(*i),
            Expr::Const(_) => false,
            Expr::Add(a, b) | Expr::Sub(a, b) | Expr::Mul(a, b) => {
                a.shares(other) || b.shares(other)
            }
        }
    }

    /// Returns the leftmost variable whose index is not below `count`.
    pub(crate) fn first_missing(&self, count: usize) -> Option<usize>
        ensures { result ≡ first_missing count self.now }
    {
        match self {
            Expr::Var(i) if *i < count => None,
            Expr::Var(i) => Some(*i),
            Expr::Const(_) => None,
            Expr::Add(a, b) | Expr::Sub(a, b) | Expr::Mul(a, b) => {
                match a.first_missing(count) {
                    Some(i) => Some(i),
                    None => b.first_missing(count),
                }
            }
        }
    }
}
