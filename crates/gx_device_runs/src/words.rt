//! The words of a line, and answers printed after it.
use crate::fault::RunFault;

/// How many words a line has after its first one at most.
const WORDS: usize = 10;

/// A line's words.
#[derive(Clone, Copy)]
pub(crate) struct Line<'a> {
    /// The first word: what the line is about.
    pub(crate) name: &'a str,
    /// Those after it, empty ones after the last. The first of them mostly says what is asked for.
    pub(crate) words: [&'a str; WORDS],
    /// Each of these as a number, 0 if it is none.
    pub(crate) numbers: [u64; WORDS],
}

impl<'a> Line<'a> {
    /// The words of a line.
    pub(crate) fn read(text: &'a str) -> Line<'a> {
        let mut rest = text.split_whitespace();
        let name = rest.next().unwrap_or("");
        let mut words = [""; WORDS];
        let mut numbers = [0; WORDS];
        for k in 0..WORDS {
            words[k] = rest.next().unwrap_or("");
            numbers[k] = words[k].parse::<u64>().unwrap_or(0);
        }
        Line {
            name,
            words,
            numbers,
        }
    }

    /// What is asked for.
    pub(crate) fn asked(&self) -> &'a str {
        self.words[0]
    }

    /// The number at this place after the first word, from 0.
    pub(crate) fn number(&self, place: usize) -> u64 {
        self.numbers.get(place).copied().unwrap_or(0)
    }
}

/// A number as a page's, or as how many of anything; the greatest if it is greater.
pub(crate) fn to_u32(number: u64) -> u32 {
    u32::try_from(number).unwrap_or(u32::MAX)
}

/// A number as an index, or a length.
pub(crate) fn to_usize(number: u64) -> usize {
    usize::try_from(number).unwrap_or(usize::MAX)
}

/// A byte of two hexadecimal digits, 0 if the word is none.
pub(crate) fn byte(word: &str) -> u8 {
    u8::from_str_radix(word, 16).unwrap_or(0)
}

/// A part of an answer.
#[derive(Clone, Copy)]
pub(crate) enum Part<'a> {
    /// A text, unchanged.
    Text(&'a str),
    /// A number, with a space before it.
    Number(u64),
    /// A byte by two hexadecimal digits, with a space before it.
    Byte(u8),
}

/// Prints parts, one after the other.
pub(crate) fn print_parts<R: Print>(rt: &R, parts: &[Part<'_>]) -> Result<(), RunFault> {
    for part in parts {
        match part {
            Part::Text(text) => print!(rt; "{text}")?,
            Part::Number(number) => print!(rt; " {number}")?,
            Part::Byte(byte) => print!(rt; " {byte:02x}")?,
        }
    }
    Ok(())
}

/// Answers a line by parts.
pub(crate) fn say_parts<R: Print>(rt: &R, parts: &[Part<'_>]) -> Result<(), RunFault> {
    print_parts(rt, parts)?;
    say_end(rt)
}

/// A test's answer as a word.
pub(crate) fn truth(answer: bool) -> &'static str {
    if answer { "true" } else { "false" }
}

/// Answers a line by a word.
pub(crate) fn say<R: Print>(rt: &R, word: &str) -> Result<(), RunFault> {
    say_parts(rt, &[Part::Text(" "), Part::Text(word)])
}

/// Answers a line by a number.
pub(crate) fn say_number<R: Print>(rt: &R, number: u64) -> Result<(), RunFault> {
    say_parts(rt, &[Part::Number(number)])
}

/// Bytes that are equal, one after the other.
#[derive(Clone, Copy)]
struct Run {
    byte: u8,
    count: u64,
}

fn print_run<R: Print>(rt: &R, Run { byte, count }: Run) -> Result<(), RunFault> {
    match count {
        0 => {}
        1 => print_parts(rt, &[Part::Byte(byte)])?,
        _ => print!(rt; " {byte:02x}*{count}")?,
    }
    Ok(())
}

/// Answers a line by bytes: each with how often it follows itself.
pub(crate) fn say_bytes<R: Print>(rt: &R, bytes: &[u8]) -> Result<(), RunFault> {
    let mut run = Run { byte: 0, count: 0 };
    for byte in bytes {
        if *byte != run.byte {
            print_run(rt, run)?;
            run = Run {
                byte: *byte,
                count: 0,
            };
        }
        run.count = run.count.wrapping_add(1);
    }
    print_run(rt, run)?;
    say_end(rt)
}

/// Ends a line.
pub(crate) fn say_end<R: Print>(rt: &R) -> Result<(), RunFault> {
    println!(rt)?;
    Ok(())
}
