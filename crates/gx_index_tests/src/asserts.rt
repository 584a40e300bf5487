//! What tests assert. An assertion is proved here, once.
use std::process::Abort;

/// Fails unless this is true.
pub(crate) fn holds(rt: &impl Abort, fact: bool) {
    assert!(rt; fact);
}

/// What there is; fails if there is nothing.
pub(crate) fn got<T>(rt: &impl Abort, found: Option<T>) -> T {
    match found {
        Some(value) => value,
        None => panic!(rt; "nothing"),
    }
}
