//! What tests assert. An assertion is proved here, once.
ghost use Rattle.std.specs.Prelude.{◌≡◌, true, Ok};

use std::process::Abort;

/// Fails with these words unless this is true.
pub(crate) fn holds(rt: &impl Abort, fact: bool, what: &'static str)
    ensures { fact ≡ true }
{
    assert!(rt; fact, "{what}");
}

/// Returns the value; fails with these words if there is none.
pub(crate) fn got<T, E: Drop>(rt: &impl Abort, answer: Result<T, E>, what: &'static str) -> T
    ensures { answer ≡ Ok result }
{
    match answer {
        Ok(value) => value,
        Err(_) => panic!(rt; "{what}"),
    }
}
