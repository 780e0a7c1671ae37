//! Compares results of calls with expected values. A test that compares by these functions is
//! proved in a fraction of the time that the macros take, which are proved again at each use.

use std::process::Abort;

/// Fails the test where what was got differs from what is wanted, and names it.
pub fn expect_same<T: PartialEq + Drop>(rt: &impl Abort, what: &str, got: T, wanted: T) {
    assert!(rt; got == wanted, "{what}");
}

/// Fails the test where the two differ. The message has the first as it is written here.
macro_rules! same {
    ($rt:expr; $got:expr, $wanted:expr $(,)?) => {
        $crate::compare::expect_same(&$rt, stringify!($got), $got, $wanted)
    };
}

pub(crate) use same;
