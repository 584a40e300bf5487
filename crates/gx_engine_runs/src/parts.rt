//! Answers printed in parts.
use crate::fault::RunFault;

/// A part of an answer.
#[derive(Clone, Copy)]
pub(crate) enum Part<'a> {
    /// A text, unchanged.
    Text(&'a str),
    /// A number, with a space before it.
    Number(u64),
    /// A coordinate, with a space before it.
    Coordinate(i32),
}

/// Prints parts, one after the other.
pub(crate) fn print_parts<R: Print>(rt: &R, parts: &[Part<'_>]) -> Result<(), RunFault> {
    for part in parts {
        match part {
            Part::Text(text) => print!(rt; "{text}")?,
            Part::Number(number) => print!(rt; " {number}")?,
            Part::Coordinate(number) => print!(rt; " {number}")?,
        }
    }
    Ok(())
}
