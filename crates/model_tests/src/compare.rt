//! The comparison of a value that was found with the one that was wanted.
use std::fmt::Debug;
use std::process::Abort;

/// Compares the value that was found with the one that was wanted.
pub fn same<T: PartialEq + Debug + Copy>(rt: &impl Abort, found: T, wanted: T) {
    assert_eq!(rt; found, wanted);
}
