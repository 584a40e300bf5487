//! Opens and verifies images with damage. Each opens, or is refused by number, exactly as the plain reader finds it,
//! and likewise verifies; the damage that is reported is found there, and an image that opens is a sound one of the
//! same set.
//!
//! A line of `stdin` asks for one thing, and the outcome is printed after it. `boxes SEED IMAGES` and `intervals SEED
//! IMAGES` make random images of an index of nine rows. `new PAGES MOST` begins the life of an index of boxes. A line
//! that begins with a digit is one of a script; `stop` opens the index, runs the script since the last stop, and keeps
//! the image that it leaves then. `moments SEED IMAGES` takes random ones of these, with bytes changed, sectors
//! exchanged, and sectors of other moments. `byte SECTOR BYTE VALUE`, the last in hexadecimal, changes a byte of a new
//! index of 16 pages with 4 entries a node; `zero SECTOR` a sector, `cut SECTORS` the number of sectors, and `frames
//! FRAMES` nothing but with how many frames it is opened. `lacking SEED EVENTS` makes random events of an index, each
//! of them between two marks, and settles it; how often memory was refused is printed. `make PATH PAIRS` makes a file
//! with a tree of so many boxes, `open PATH` makes an opening's tests of it, and `remove PATH` removes it; each prints
//! how many pages are in use then.
//!
//! An empty line, and one that begins with `#`, is printed unchanged. The program ends at the first image on which the
//! two differ, with status 1.
#![tactic(auto)]

mod base;
mod bytes;
mod changed;
mod counts;
mod damage;
mod device;
mod draw;
mod fault;
mod lacking;
mod large;
mod moments;
mod opened;
mod opening;
mod told;

use base::make_base;
use changed::changed;
use counts::Counts;
use damage::damage;
use fault::RunFault;
use gx_class::{Box2Class, IntervalClass};
use lacking::run_lacking;
use large::make;
use moments::Life;
use opened::{Found, judge};
use opening::open;
use rand_core::SeedableRng;
use rand_pcg::Pcg32;
use std::alloc::Global;
use std::process::ExitCode;
use std::str::SplitWhitespace;

/// What lines asked for so far that later ones use.
#[derive(Drop)]
struct Runs {
    life: Life,
    script: Vec<u8>,
}

/// What random images are made of.
#[derive(Clone, Copy)]
enum Kind {
    Boxes,
    Intervals,
    Moments,
}

impl Kind {
    /// What makes random images of this kind by a seed. Near seeds, and different kinds, give unrelated images.
    fn draws(self, seed: u64) -> Pcg32 {
        let kind = match self {
            Kind::Boxes => 0,
            Kind::Intervals => 1,
            Kind::Moments => 2,
        };
        Pcg32::seed_from_u64(seed.wrapping_mul(3).wrapping_add(kind))
    }
}

/// The next word as a number.
pub(crate) fn number(words: &mut SplitWhitespace<'_>) -> Result<u64, RunFault> {
    let word = words.next().ok_or(RunFault::BadLine)?;
    word.parse::<u64>().ok().ok_or(RunFault::BadLine)
}

/// Makes a random image, and returns its outcome, if an opening, the verification and the plain reader agree.
fn take_image(
    alloc: Global,
    life: &Life,
    kind: Kind,
    draw: &mut Pcg32,
) -> Result<Option<Found>, RunFault> {
    match kind {
        Kind::Boxes => {
            let mut image = make_base(alloc, 1, draw)?;
            damage(&mut image, draw);
            judge::<Box2Class>(alloc, image.bytes)
        }
        Kind::Intervals => {
            let mut image = make_base(alloc, 2, draw)?;
            damage(&mut image, draw);
            judge::<IntervalClass>(alloc, image.bytes)
        }
        Kind::Moments => judge::<Box2Class>(alloc, life.damaged(alloc, draw)?),
    }
}

/// Makes the random images of a line. Returns whether both agreed on all.
fn take_images(
    rt: &HostRuntime,
    life: &Life,
    kind: Kind,
    words: &mut SplitWhitespace<'_>,
) -> Result<bool, RunFault> {
    let mut draw = kind.draws(number(words)?);
    let mut counts = Counts::default();
    for image in 0..number(words)? {
        match take_image(rt.alloc(), life, kind, &mut draw)? {
            Some(found) => counts.add(found),
            None => {
                println!(rt; " they differ on image {image}")?;
                return Ok(false);
            }
        }
    }
    println!(rt; " {counts}")?;
    Ok(true)
}

/// Makes a file with a large tree, opens one or removes one. Returns how many pages it has in use.
fn take_large(
    rt: &HostRuntime,
    asked: &str,
    words: &mut SplitWhitespace<'_>,
) -> Result<u32, RunFault> {
    let path = words.next().ok_or(RunFault::BadLine)?;
    match asked {
        "make" => make(rt, path, number(words)?),
        "open" => open(rt, path),
        _ => {
            std::fs::remove_file(rt, path)?;
            Ok(0)
        }
    }
}

impl Runs {
    /// A new index's life begins.
    fn begin_life(
        &mut self,
        alloc: Global,
        words: &mut SplitWhitespace<'_>,
    ) -> Result<(), RunFault> {
        let pages = u32::try_from(number(words)?).unwrap_or(0);
        let most = u16::try_from(number(words)?).unwrap_or(0);
        self.script.clear();
        self.life.begin_life(alloc, pages, most)
    }

    /// The script since the last stop is run.
    fn stop(&mut self, alloc: Global) -> Result<(), RunFault> {
        self.life.go_on(alloc, &self.script)?;
        self.script.clear();
        Ok(())
    }

    /// Takes a line that asks for something, and returns whether all agreed.
    fn take_words(&mut self, rt: &HostRuntime, line: &str) -> Result<bool, RunFault> {
        let mut words = line.split_whitespace();
        let asked = words.next().ok_or(RunFault::BadLine)?;
        let kind = match asked {
            "boxes" => Kind::Boxes,
            "intervals" => Kind::Intervals,
            "moments" => Kind::Moments,
            "make" | "open" | "remove" => {
                let used = take_large(rt, asked, &mut words)?;
                println!(rt; " {used} pages in use")?;
                return Ok(true);
            }
            "lacking" => {
                let lacked = run_lacking(rt.alloc(), number(&mut words)?, number(&mut words)?)?;
                println!(rt; " {lacked}")?;
                return Ok(true);
            }
            _ => return take_changed(rt, asked, &mut words),
        };
        take_images(rt, &self.life, kind, &mut words)
    }

    /// Takes a line, and returns whether all agreed.
    fn take_line(&mut self, rt: &HostRuntime, line: &str) -> Result<bool, RunFault> {
        match line.as_bytes() {
            [] | [b'#', ..] => println!(rt; "{line}")?,
            [b'0'..=b'9', ..] => {
                self.script.extend_from_slice(line.as_bytes())?;
                self.script.push(b'\n')?;
            }
            b"stop" => self.stop(rt.alloc())?,
            _ if line.starts_with("new ") => {
                let mut words = line.split_whitespace();
                let _new = words.next();
                self.begin_life(rt.alloc(), &mut words)?;
            }
            _ => {
                print!(rt; "{line}:")?;
                return self.take_words(rt, line);
            }
        }
        Ok(true)
    }
}

/// Changes a new index as a line says, and prints the outcome.
fn take_changed(
    rt: &HostRuntime,
    asked: &str,
    words: &mut SplitWhitespace<'_>,
) -> Result<bool, RunFault> {
    match changed(rt.alloc(), asked, words)? {
        Some(text) => println!(rt; " {text}")?,
        None => {
            println!(rt; " the commands differ")?;
            return Ok(false);
        }
    }
    Ok(true)
}

/// Takes each line of the input. Returns whether all agreed.
fn run(rt: &HostRuntime) -> Result<bool, RunFault> {
    let mut runs = Runs {
        life: Life::new(rt.alloc()),
        script: Vec::new(rt.alloc()),
    };
    for line in rt.lines(rt.alloc()) {
        let line = line?;
        if !runs.take_line(rt, line.as_str())? {
            return Ok(false);
        }
    }
    Ok(true)
}

fn main(rt: HostRuntime) -> ExitCode {
    match run(&rt) {
        Ok(true) => ExitCode::from(0),
        Ok(false) => ExitCode::from(1),
        Err(fault) => {
            let fault = fault.name();
            let _ = println!(rt; " stopped: {fault}");
            ExitCode::from(1)
        }
    }
}
