//! Records spelled byte for byte, and bytes read as records.
ghost use Rattle.gx_record.specs.Format.{IsInRange};
ghost use Rattle.gx_record.specs.Seen.{rec_of};

use crate::fault::RunFault;
use crate::words::{
    Line, Part, byte, print_parts, say, say_bytes, say_parts, to_u32, to_usize, truth,
};
use gx_page::{Page, PageFault};
use gx_record::{Mark, PageImage, PageImages, Record};
use std::alloc::Global;

/// How many bytes a key has.
const KEY: usize = 16;

/// How many bytes there are to spell a record in.
pub(crate) const ROOM: usize = 12_400;

/// The key of all records that have one.
const KEY_BYTES: [u8; KEY] = [0, 0, 0, 0, 0, 0, 0, 0, 0, 0, 0, 10, 0, 0, 0, 10];

/// Whether this record is read from the front of the bytes, and has so many.
fn is_read(given: &Record<'_>, bytes: &[u8], size: usize) -> bool {
    matches!(Record::decode(bytes, KEY), Some((read, taken)) if read == *given && taken == size)
}

/// Whether the record is read from its spelling, with nothing and with something after it, and nothing from a shorter
/// front.
fn reads_back(given: &Record<'_>, text: &[u8], size: usize) -> bool {
    if size >= text.len() {
        return false;
    }
    for end in 0..size {
        if Record::decode(&text[..end], KEY).is_some() {
            return false;
        }
    }
    is_read(given, &text[..size], size) && is_read(given, text, size)
}

/// Spells a record over bytes that are all ee, and prints its length, whether it is read back, and all bytes.
fn spell<R: Print>(rt: &R, given: &Record<'_>, text: &mut [u8]) -> Result<(), RunFault>
    requires { IsInRange (rec_of given.now) }
{
    let length = given.length();
    text.fill(0xee);
    let spelled = match given.encode_into(text) {
        Some(size) if size == length => {
            let back = if reads_back(given, text, size) {
                " bytes, read back:"
            } else {
                " bytes, not read back:"
            };
            [Part::Number(size as u64), Part::Text(back)]
        }
        Some(_) => [Part::Text(" of another length"), Part::Text(":")],
        None => [Part::Text(" no room"), Part::Text(":")],
    };
    print_parts(rt, &spelled)?;
    say_bytes(rt, text)
}

/// A mark by its name.
fn mark(name: &str) -> Mark {
    if name == "live" {
        Mark::Live
    } else {
        Mark::Marked
    }
}

fn commit<R: Print>(rt: &R, text: &mut [u8], line: &Line<'_>) -> Result<(), RunFault> {
    let commit = Record::Commit {
        tx: line.number(1),
        n: line.number(2),
    };
    spell(rt, &commit, text)
}

fn spell_end<R: Print>(rt: &R, text: &mut [u8], line: &Line<'_>) -> Result<(), RunFault> {
    let tx = line.number(1);
    spell(rt, &Record::End { tx }, text)
}

fn counters<R: Print>(rt: &R, text: &mut [u8], line: &Line<'_>) -> Result<(), RunFault> {
    let counters = Record::Counters {
        n: line.number(1),
        counter: line.number(2),
        used: to_u32(line.number(3)),
        next: line.number(4),
    };
    spell(rt, &counters, text)
}

fn note<R: Print>(rt: &R, text: &mut [u8], line: &Line<'_>) -> Result<(), RunFault> {
    let note = Record::Note {
        tx: line.number(1),
        row: line.number(2),
        key: &KEY_BYTES,
        before: mark(line.words[3]),
        leaf: to_u32(line.number(4)),
    };
    spell(rt, &note, text)
}

/// A write that doesn't change its leaf.
fn spell_write<R: Print>(
    rt: &R,
    text: &mut [u8],
    line: &Line<'_>,
    leaf: &Page,
) -> Result<(), RunFault> {
    let leaf = PageImage::of(leaf);
    let write = Record::Write {
        tx: line.number(1),
        row: line.number(2),
        key: &KEY_BYTES,
        before: mark(line.words[3]),
        after: mark(line.words[4]),
        leaf: leaf.page,
        image: leaf.image,
    };
    spell(rt, &write, text)
}

/// A fresh page by its level and its number.
pub(crate) fn fresh(alloc: Global, level: u64, number: u64) -> Result<Page, PageFault> {
    Page::fresh(
        alloc,
        u16::try_from(level).unwrap_or(u16::MAX),
        to_u32(number),
    )
}

/// A write whose leaf is a fresh page.
fn write<R: Print>(
    rt: &R,
    alloc: Global,
    text: &mut [u8],
    line: &Line<'_>,
) -> Result<(), RunFault> {
    let page = fresh(alloc, 0, line.numbers[5])?;
    spell_write(rt, text, line, &page)
}

/// Pages as counter 5 and 3 pages in use leave them.
fn spell_two<R: Print>(rt: &R, text: &mut [u8], low: &Page, high: &Page) -> Result<(), RunFault> {
    let low = PageImage::of(low);
    let high = PageImage::of(high);
    if low.page >= high.page {
        return Err(RunFault::BadLine);
    }
    let record = Record::Pages {
        counter: 5,
        used: 3,
        pages: PageImages::Two(low, high),
    };
    spell(rt, &record, text)
}

/// Prints how many pages there are, whether the one at place 1 is this one, and whether there is none after the last.
fn say_second<R: Print>(
    rt: &R,
    pages: &PageImages<'_>,
    second: &PageImage<'_>,
) -> Result<(), RunFault> {
    let count = pages.count();
    print_parts(
        rt,
        &[
            Part::Number(count as u64),
            Part::Text(" pages, the second is right: "),
            Part::Text(truth(pages.get(1) == Some(*second))),
            Part::Text(", none behind: "),
            Part::Text(truth(pages.get(count).is_none())),
            Part::Text(","),
        ],
    )
}

/// The same of three pages.
fn spell_three<R: Print>(rt: &R, text: &mut [u8], three: [&Page; 3]) -> Result<(), RunFault> {
    let [first, second, third] = three;
    let first = PageImage::of(first);
    let second = PageImage::of(second);
    let third = PageImage::of(third);
    if first.page >= second.page || second.page >= third.page {
        return Err(RunFault::BadLine);
    }
    let pages = PageImages::Three(first, second, third);
    say_second(rt, &pages, &second)?;
    let record = Record::Pages {
        counter: 5,
        used: 3,
        pages,
    };
    spell(rt, &record, text)
}

fn two_pages<R: Print>(
    rt: &R,
    alloc: Global,
    text: &mut [u8],
    line: &Line<'_>,
) -> Result<(), RunFault> {
    let [_, level, number, other_level, other, ..] = line.numbers;
    let low = fresh(alloc, level, number)?;
    let high = fresh(alloc, other_level, other)?;
    spell_two(rt, text, &low, &high)
}

fn three_pages<R: Print>(
    rt: &R,
    alloc: Global,
    text: &mut [u8],
    line: &Line<'_>,
) -> Result<(), RunFault> {
    let [
        _,
        level,
        number,
        second_level,
        second,
        third_level,
        third,
        ..
    ] = line.numbers;
    let first = fresh(alloc, level, number)?;
    let second = fresh(alloc, second_level, second)?;
    let third = fresh(alloc, third_level, third)?;
    spell_three(rt, text, [&first, &second, &third])
}

/// The record of the first commit if there are so many bytes.
fn short<R: Print>(rt: &R, text: &mut [u8], line: &Line<'_>) -> Result<(), RunFault> {
    match text.get_mut(..to_usize(line.numbers[1])) {
        Some(front) => spell(rt, &Record::Commit { tx: 1, n: 1 }, front),
        None => Err(RunFault::BadLine),
    }
}

/// A line that spells a record.
pub(crate) fn call<R: Print>(
    rt: &R,
    alloc: Global,
    text: &mut [u8],
    line: &Line<'_>,
) -> Result<(), RunFault> {
    match line.asked() {
        "commit" => commit(rt, text, line),
        "end" => spell_end(rt, text, line),
        "counters" => counters(rt, text, line),
        "note" => note(rt, text, line),
        "write" => write(rt, alloc, text, line),
        "two" => two_pages(rt, alloc, text, line),
        "three" => three_pages(rt, alloc, text, line),
        "short" => short(rt, text, line),
        _ => Err(RunFault::BadLine),
    }
}

/// Prints the record at the front of the bytes, and how many bytes it has.
pub(crate) fn say_record<R: Print>(rt: &R, bytes: &[u8]) -> Result<(), RunFault> {
    match Record::decode(bytes, KEY) {
        None => say(rt, "none"),
        Some((Record::Commit { tx, n }, taken)) => say_parts(
            rt,
            &[
                Part::Text(" commit"),
                Part::Number(n),
                Part::Text(" of"),
                Part::Number(tx),
                Part::Text(","),
                Part::Number(taken as u64),
                Part::Text(" bytes"),
            ],
        ),
        Some(
            (
                Record::Counters {
                    n,
                    counter,
                    used,
                    next,
                },
                taken,
            ),
        ) => say_parts(
            rt,
            &[
                Part::Text(" counters"),
                Part::Number(n),
                Part::Number(counter),
                Part::Number(u64::from(used)),
                Part::Number(next),
                Part::Text(","),
                Part::Number(taken as u64),
                Part::Text(" bytes"),
            ],
        ),
        Some((_, taken)) => say_parts(rt, &[Part::Number(taken as u64), Part::Text(" bytes")]),
    }
}

/// Sets one byte of the text.
fn set(text: &mut [u8], line: &Line<'_>) -> Result<(), RunFault> {
    match text.get_mut(to_usize(line.numbers[1])) {
        Some(place) => {
            *place = byte(line.words[2]);
            Ok(())
        }
        None => Err(RunFault::BadLine),
    }
}

/// A line that reads the text, of which a byte is set before, or all bytes are zeros, or a front of it.
pub(crate) fn read<R: Print>(rt: &R, text: &mut [u8], line: &Line<'_>) -> Result<(), RunFault> {
    let mut end = text.len();
    match line.asked() {
        "set" => set(text, line)?,
        "zeros" => text.fill(0),
        "front" => end = to_usize(line.numbers[1]),
        _ => return Err(RunFault::BadLine),
    }
    match text.get(..end) {
        Some(front) => say_record(rt, front),
        None => Err(RunFault::BadLine),
    }
}
