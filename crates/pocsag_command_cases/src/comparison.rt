//! Comparisons that end a test where they fail.

use std::fmt::Debug;
use std::process::Abort;

/// Ends the test where what was found is not what was due. It is a function, because what `assert_eq!` prints is proved
/// again with each test that calls it.
pub fn expect_same<T: PartialEq + Debug>(rt: &impl Abort, found: &T, due: &T) {
    assert_eq!(rt; found, due);
}

/// The same of a case, which a failure names.
pub fn expect_same_of<T: PartialEq + Debug>(
    rt: &impl Abort,
    found: &T,
    due: &T,
    case: &impl Debug,
) {
    assert_eq!(rt; found, due, "{case:?}");
}

/// Compares what was found with what is due. A failure names the case, where one is given.
#[macro_export]
macro_rules! same {
    ($rt:expr; $found:expr, $due:expr $(,)?) => {
        $crate::comparison::expect_same(&$rt, &$found, &$due)
    };
    ($rt:expr; $found:expr, $due:expr, $case:expr $(,)?) => {
        $crate::comparison::expect_same_of(&$rt, &$found, &$due, &$case)
    };
}
