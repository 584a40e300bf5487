//! A whole image.
use crate::bytes::{sector, span, u16_at, u32_at};
use crate::finding::{Finding, Findings, Place};
use crate::log::Log;
use crate::page::{Node, own_number, page_at};
use crate::records::take_extent;
use crate::rules::{self, Rule};
use crate::set::set_of;
use crate::tree::test_tree;
use crate::{Damage, Entry};
use std::alloc::Global;

/// The sectors of the least device of any version.
const LEAST: usize = 4232;

/// The sectors ahead of the pages.
const AHEAD: usize = 16_648;

/// What the second sector says.
#[derive(Clone, Copy)]
pub struct Parameters {
    pub pages: u32,
    /// How many entries a node may have.
    pub most: u16,
    pub class: u16,
}

/// What an image stands for.
#[derive(Drop)]
pub struct Reading {
    pub parameters: Parameters,
    /// The last commit's number.
    pub number: u64,
    pub counter: u64,
    pub used: u32,
    /// The next transaction's number.
    pub next: u64,
    /// The entries, in order.
    pub set: Vec<Entry>,
    /// The pages in use by number, from page 1 on.
    pub nodes: Vec<Node>,
}

/// The second sector's numbers, unchanged.
fn parameters_of(image: &[u8]) -> Option<Parameters> {
    Some(Parameters {
        pages: u32_at(image, 512)?,
        most: u16_at(image, 516)?,
        class: u16_at(image, 518)?,
    })
}

/// Why a device isn't one of an index of this class, if it isn't; the first reason.
fn wrong_head(image: &[u8], parameters: Option<Parameters>, class: u16) -> Option<Rule> {
    if image.len() < sector(LEAST) {
        return Some(rules::SHORT);
    }
    if span(image, 0, 8) == Some(b"GISTRT01".as_slice()) {
        return Some(rules::OLD_MAGIC);
    }
    if span(image, 0, 8) != Some(b"GISTRT02".as_slice()) {
        return Some(rules::MAGIC);
    }
    let Some(
        Parameters {
            pages,
            most,
            class: found,
        },
    ) = parameters
    else {
        return Some(rules::SHORT);
    };
    if pages < 8 || pages > 65_536 || most < 4 || most > 100 || found != class {
        return Some(rules::PARAMETERS);
    }
    if image.len() < sector(pages as usize * 8 + AHEAD) {
        return Some(rules::SHORT);
    }
    None
}

/// The log of the selected extent.
fn log_of(alloc: Global, image: &[u8], parameters: Parameters) -> Result<Log, Damage> {
    let (extent, first) = match image.get(1024) {
        Some(0x5A) => ("B", 8328),
        _ => ("A", 8),
    };
    let mut log = Log::new(alloc, parameters, extent);
    take_extent(alloc, &mut log, image, first)?;
    Ok(log)
}

/// The node of a page in use.
fn node_at(alloc: Global, image: &[u8], log: &Log, number: u32) -> Result<Node, Damage> {
    let at = log
        .place(number)
        .unwrap_or(sector(number as usize * 8 + AHEAD - 8));
    let page = page_at(image, at)?;
    if own_number(page)? != number {
        return Err(Damage::OwnNumber);
    }
    log.node_after(alloc, Some(log.parameters.pages), number, page)
}

/// What is wrong with a page that can't be read.
fn unreadable(damage: Damage) -> Result<Rule, Damage> {
    match damage {
        Damage::Memory => Err(damage),
        Damage::OwnNumber => Ok(rules::OWN_NUMBER),
        Damage::Entry | Damage::Key => Ok(rules::ENTRY),
        _ => Ok(rules::PAGE),
    }
}

/// The pages in use, by number, as far as they can be read.
fn nodes_of(
    alloc: Global,
    image: &[u8],
    log: &Log,
    found: &mut Findings,
) -> Result<Vec<Node>, Damage> {
    let mut nodes = Vec::new(alloc);
    for before in 0..log.used {
        let number = before.saturating_add(1);
        match node_at(alloc, image, log, number) {
            Ok(node) => nodes.push(node)?,
            Err(damage) => found.add_finding(Place::Unread(number), unreadable(damage)?)?,
        }
    }
    Ok(nodes)
}

/// What was read of an image: a sound one's log and pages; else what is wrong.
fn look(
    alloc: Global,
    image: &[u8],
    class: u16,
) -> Result<Result<(Log, Vec<Node>), Findings>, Damage> {
    let mut found = Findings::new(alloc);
    let parameters = parameters_of(image);
    let (Some(parameters), None) = (parameters, wrong_head(image, parameters, class)) else {
        let rule = wrong_head(image, parameters, class).unwrap_or(rules::SHORT);
        found.add_finding(Place::Head, rule)?;
        return Ok(Err(found));
    };
    let log = log_of(alloc, image, parameters)?;
    if !log.found.is_none() {
        return Ok(Err(log.found));
    }
    let nodes = nodes_of(alloc, image, &log, &mut found)?;
    if found.is_none() {
        test_tree(alloc, &nodes, &log, &mut found)?;
    }
    Ok(if found.is_none() {
        Ok((log, nodes))
    } else {
        Err(found)
    })
}

/// All that is found to be wrong with a device's bytes as an index of this class, 1 for boxes and 2 for intervals: the
/// first reason ahead of the log; or else each rule that the first record which may not be there breaks; or else each
/// page that can't be read; or else each rule that the tree breaks. Nothing of a sound image. Refused with
/// `Damage::Memory` alone.
pub fn findings(alloc: Global, image: &[u8], class: u16) -> Result<Vec<Finding>, Damage> {
    match look(alloc, image, class)? {
        Ok(_sound) => Ok(Vec::new(alloc)),
        Err(found) => Ok(found.all),
    }
}

/// Reads a device's bytes as an index of this class, 1 for boxes and 2 for intervals. Nothing is taken on trust: the
/// bytes that an index has are tested one by one, and `Damage` says which test failed first; tests go from the sectors
/// to the log, then the pages, then the tree.
pub fn read(alloc: Global, image: &[u8], class: u16) -> Result<Reading, Damage> {
    let (log, nodes) = match look(alloc, image, class)? {
        Ok(sound) => sound,
        Err(found) => return Err(found.first()),
    };
    let set = set_of(alloc, &nodes, &log)?;
    Ok(Reading {
        parameters: log.parameters,
        number: log.number,
        counter: log.counter,
        used: log.used,
        next: log.next,
        set,
        nodes,
    })
}
