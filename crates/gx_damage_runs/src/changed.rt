//! A new index, on which one thing is changed.
use crate::bytes::{lay, sector, set};
use crate::device::formatted;
use crate::fault::RunFault;
use crate::number;
use crate::opened::FRAMES;
use crate::told::tell_opening;
use std::alloc::Global;
use std::str::SplitWhitespace;

/// How many pages the index has, and how many entries a node.
const PAGES: u32 = 16;

const MOST: u16 = 4;

/// The next word as a place in the image.
fn place(words: &mut SplitWhitespace<'_>) -> Result<usize, RunFault> {
    Ok(usize::try_from(number(words)?).unwrap_or(usize::MAX))
}

/// The next word as a byte in hexadecimal.
fn value(words: &mut SplitWhitespace<'_>) -> Result<u8, RunFault> {
    let word = words.next().ok_or(RunFault::BadLine)?;
    u8::from_str_radix(word, 16).ok().ok_or(RunFault::BadLine)
}

/// Changes one thing, as the words say, and returns the outcome; nothing if the commands that open it differ.
pub(crate) fn changed(
    alloc: Global,
    asked: &str,
    words: &mut SplitWhitespace<'_>,
) -> Result<Option<String>, RunFault> {
    let mut image = formatted(alloc, PAGES, MOST)?;
    let mut frames = FRAMES;
    match asked {
        "byte" => {
            let at = sector(place(words)?).saturating_add(place(words)?);
            set(&mut image, at, value(words)?);
        }
        "zero" => lay(&mut image, sector(place(words)?), &[0; 512]),
        "cut" => image.truncate(sector(place(words)?)),
        "frames" => frames = place(words)?,
        _ => return Err(RunFault::BadLine),
    }
    tell_opening(alloc, &image, frames)
}
