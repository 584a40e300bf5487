//! The forms of lines. A line that has none of them is refused before any of it is made.
use crate::fault::RunFault;
use std::str::SplitWhitespace;

/// How many numbers a line has at most.
const NUMBERS: usize = 7;

/// The greatest number of a page, of entries a node, and of a session; and of what has no limit here.
const PAGE: u64 = u32::MAX as u64;

const MOST: u64 = u16::MAX as u64;

const SESSION: u64 = u8::MAX as u64;

const ANY: u64 = u64::MAX;

/// What a line asks for.
#[derive(Clone, Copy)]
pub(crate) enum Kind {
    Index,
    Boxes,
    Intervals,
    Fails,
    Stops,
    Move,
    Log,
    Write,
    Checkpoint,
    Sweep,
    Page,
    Rest,
    /// A script's line after `call`.
    Call,
    /// A script's line.
    Ask,
}

/// A line's first word, what it asks for, and the greatest that each number after it may be.
type Form = (&'static str, Kind, &'static [u64]);

static FORMS: [Form; 12] = [
    ("index", Kind::Index, &[PAGE, MOST, ANY]),
    ("boxes", Kind::Boxes, &[ANY, ANY, MOST, ANY]),
    ("intervals", Kind::Intervals, &[ANY, ANY, MOST, ANY]),
    ("fails", Kind::Fails, &[ANY, ANY, MOST, ANY, ANY, ANY, ANY]),
    ("stops", Kind::Stops, &[ANY, ANY, MOST, ANY, ANY, ANY, ANY]),
    ("move", Kind::Move, &[SESSION]),
    ("log", Kind::Log, &[]),
    ("write", Kind::Write, &[PAGE]),
    ("checkpoint", Kind::Checkpoint, &[]),
    ("sweep", Kind::Sweep, &[PAGE]),
    ("page", Kind::Page, &[PAGE]),
    ("rest", Kind::Rest, &[SESSION]),
];

/// A line that has a form.
#[derive(Clone, Copy)]
pub(crate) struct Line<'a> {
    pub(crate) kind: Kind,
    /// The line of a script, if it is one.
    pub(crate) script: &'a str,
    /// The numbers after the first word, and 0 after the last.
    pub(crate) numbers: [u64; NUMBERS],
}

/// A word as a number up to this one.
fn number(word: Option<&str>, greatest: u64) -> Option<u64> {
    match word?.parse::<u64>() {
        Ok(number) if number <= greatest => Some(number),
        _ => None,
    }
}

/// The words as numbers, each up to its greatest, if there are as many.
fn numbers(words: &mut SplitWhitespace<'_>, greatest: &[u64]) -> Option<[u64; NUMBERS]> {
    let mut numbers = [0; NUMBERS];
    for (place, most) in numbers.iter_mut().zip(greatest) {
        *place = number(words.next(), *most)?;
    }
    if words.next().is_some() {
        return None;
    }
    Some(numbers)
}

/// What a line of this first word asks for, and the greatest of its numbers.
fn form(name: &str) -> Option<(Kind, &'static [u64])> {
    for (word, kind, greatest) in &FORMS {
        if name == *word {
            return Some((*kind, *greatest));
        }
    }
    None
}

/// A line of a script, which is judged where it is made.
fn script(kind: Kind, script: &str) -> Line<'_> {
    Line {
        kind,
        script,
        numbers: [0; NUMBERS],
    }
}

impl<'a> Line<'a> {
    /// Reads a line.
    pub(crate) fn read(text: &'a str) -> Result<Line<'a>, RunFault> {
        if let Some(call) = text.strip_prefix("call ") {
            return Ok(script(Kind::Call, call));
        }
        let mut words = text.split_whitespace();
        let Some((kind, greatest)) = form(words.next().unwrap_or("")) else {
            return Ok(script(Kind::Ask, text));
        };
        match numbers(&mut words, greatest) {
            Some(numbers) => Ok(Line {
                kind,
                script: "",
                numbers,
            }),
            None => Err(RunFault::BadLine),
        }
    }
}

/// A number as a session.
pub(crate) fn to_u8(number: u64) -> u8 {
    u8::try_from(number).unwrap_or(u8::MAX)
}

/// A number as how many entries a node has at most.
pub(crate) fn to_u16(number: u64) -> u16 {
    u16::try_from(number).unwrap_or(u16::MAX)
}

/// A number as a page's.
pub(crate) fn to_u32(number: u64) -> u32 {
    u32::try_from(number).unwrap_or(u32::MAX)
}

/// A number as how many frames there are.
pub(crate) fn to_usize(number: u64) -> usize {
    usize::try_from(number).unwrap_or(0)
}
