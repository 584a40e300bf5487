//! What is wrong with an image, and where; all that is.
use crate::Damage;
use crate::rules::Rule;
use std::alloc::{AllocError, Global};

/// Where a rule is broken.
#[derive(Clone, Copy)]
pub(crate) enum Place {
    /// Ahead of the log.
    Head,
    /// In the log of this extent, in this body, after so many bytes of whole records.
    Log(&'static str, usize, usize),
    /// This page can't be read.
    Unread(u32),
    /// On this page.
    Page(u32),
    /// On this page: the child, or the bound, in this slot.
    Slot(u32, &'static str, usize),
}

/// A part of an image. One is tested only if those before it are sound.
#[derive(Clone, Copy, PartialEq, Eq)]
pub enum Part {
    /// The sectors ahead of the log, and how many there are.
    Head,
    /// The log's bodies.
    Log,
    /// The pages in use, each by itself.
    Page,
    /// Their tree.
    Tree,
    /// Where in it is what open transactions touched.
    Place,
}

/// A rule that an image breaks, and where.
#[derive(Clone, Copy)]
pub struct Finding {
    place: Place,
    rule: Rule,
}

impl Finding {
    /// What is wrong.
    pub fn damage(&self) -> Damage {
        let Rule(damage, _) = self.rule;
        damage
    }

    /// The part that is damaged.
    pub fn part(&self) -> Part {
        match self.place {
            Place::Head => Part::Head,
            Place::Log(..) => Part::Log,
            Place::Unread(_) => Part::Page,
            Place::Page(_) | Place::Slot(..) if self.damage() == Damage::Place => Part::Place,
            Place::Page(_) | Place::Slot(..) => Part::Tree,
        }
    }

    /// Whether a sentence says just this. None does of what is wrong ahead of the log.
    pub fn is_said(&self, alloc: Global, sentence: &str) -> Result<bool, AllocError> {
        let Rule(_, text) = self.rule;
        let said = match self.place {
            Place::Head => return Ok(false),
            Place::Log(extent, body, at) => {
                format!(in alloc; "log {extent}, body {body}, byte {at}: {text}")?
            }
            Place::Unread(page) => format!(in alloc; "page {page} can't be read")?,
            Place::Page(page) => format!(in alloc; "page {page}: {text}")?,
            Place::Slot(page, what, slot) => {
                format!(in alloc; "page {page}: the {what} in slot {slot} {text}")?
            }
        };
        Ok(said.as_str() == sentence)
    }
}

/// All that is found to be wrong, so far.
#[derive(Drop)]
pub(crate) struct Findings {
    pub(crate) all: Vec<Finding>,
}

impl Findings {
    pub(crate) fn new(alloc: Global) -> Findings {
        Findings {
            all: Vec::new(alloc),
        }
    }

    /// This rule is broken there.
    pub(crate) fn add_finding(&mut self, place: Place, rule: Rule) -> Result<(), Damage> {
        self.all.push(Finding { place, rule })?;
        Ok(())
    }

    pub(crate) fn is_none(&self) -> bool {
        self.all.is_empty()
    }

    /// What was found first.
    pub(crate) fn first(&self) -> Damage {
        match self.all.first() {
            Some(finding) => finding.damage(),
            None => Damage::Memory,
        }
    }
}
