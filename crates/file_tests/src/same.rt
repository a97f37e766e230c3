//! A comparison that is proved once for each type, where an `assert_eq!` is proved anew wherever it stands.
use std::fmt::Debug;
use std::process::Abort;

/// Ends the test, and shows both, unless it was told what it wanted. Where the lines after it rely on that, only `assert_eq!` says so.
pub fn assert_same<T: PartialEq + Debug + Drop>(rt: &impl Abort, told: T, wanted: T) {
    assert_eq!(rt; told, wanted);
}
