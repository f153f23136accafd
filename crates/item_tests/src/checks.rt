//! How the tests end.

ghost use Rattle.std.specs.Prelude.{◌≡◌, true};

use std::fmt::Debug;
use std::process::Abort;

/// Fails the test unless this holds.
pub fn check(rt: &impl Abort, holds: bool)
    ensures { holds ≡ true }
{
    assert!(rt; holds);
}

/// Fails the test unless both are the same.
pub fn same<T: PartialEq + Debug + Drop>(rt: &impl Abort, got: T, want: T) {
    assert_eq!(rt; got, want);
}
