//! A value, or none, as a set of at most one member.
ghost use Rattle.std.specs.Prelude.{◌≡◌, ◌↔◌, None, Some, IsSome, IsTrue};
ghost use Rattle.std.specs.Option.{option_copied};

use std::marker::Model;

/// A value, or none. A contract sees an option.
///
/// It stands for a set of at most one member, and is `Copy` if its value is. No call allocates.
///
/// ```
/// let (none, some) = (Optional::empty(), Optional::singleton(5i32));
/// assert!(rt; none != some);
/// ```
#[derive(Clone, Copy, PartialEq, Eq, Debug)]
pub struct Optional<T> {
    value: Option<T>,
}

impl<T> Model for Optional<T> {
    ghost use Rattle.std.specs.Prelude.{Option};

    ghost Value = { Option T };

    ghost view = { λ o. o.value };

    ghost inverse = { λ o. record { value = o } };
}

impl<T> Optional<T> {
    /// Returns an option with no value.
    ///
    /// ```
    /// assert!(rt; Optional::<i32>::empty().is_empty());
    /// ```
    pub fn empty() -> Self
        // The result holds no value.
        ensures { result ≡ None }
    {
        Optional { value: None }
    }

    /// Returns an option with the value `x`.
    ///
    /// ```
    /// assert_eq!(rt; Optional::singleton(5i32).as_ref(), Some(&5));
    /// ```
    pub fn singleton(x: T) -> Self
        // The result holds `x`.
        ensures { result ≡ Some x }
    {
        Optional { value: Some(x) }
    }

    /// Returns true exactly when there is no value.
    ///
    /// ```
    /// assert!(rt; !Optional::singleton(5i32).is_empty());
    /// ```
    pub fn is_empty(&self) -> bool
        // True exactly when there is no value.
        ensures { IsTrue result ↔ (self.now ≡ None) }
    {
        self.value.is_none()
    }

    /// Returns true exactly when there is a value.
    ///
    /// ```
    /// assert!(rt; Optional::singleton(5i32).is_some());
    /// ```
    pub fn is_some(&self) -> bool
        // True exactly when there is a value.
        ensures { IsTrue result ↔ IsSome self.now }
    {
        self.value.is_some()
    }

    /// Returns a reference to the value, or `None` if there is none.
    ///
    /// ```
    /// assert_eq!(rt; Optional::<i32>::empty().as_ref(), None);
    /// ```
    pub fn as_ref(&self) -> Option<&T>
        // The result is the value, if there is one.
        ensures { option_copied result ≡ self.now }
    {
        self.value.as_ref()
    }
}
