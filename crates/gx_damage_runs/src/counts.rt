//! How images ended.
use crate::opened::Found;
use gx_plain_reader::Part;
use std::fmt;

/// How many images were found so.
#[derive(Clone, Copy, Default)]
pub(crate) struct Counts {
    opened: u64,
    unformatted: u64,
    small: u64,
    parameters: u64,
    log: u64,
    page: u64,
    tree: u64,
    place: u64,
}

impl Counts {
    /// One more was found so.
    pub(crate) fn add(&mut self, found: Found) {
        let count = match found {
            Found::Sound => &mut self.opened,
            Found::Refused(14, _) => &mut self.unformatted,
            Found::Refused(17, _) => &mut self.small,
            Found::Refused(18, _) => &mut self.parameters,
            Found::Refused(_, Part::Head | Part::Log) => &mut self.log,
            Found::Refused(_, Part::Page) => &mut self.page,
            Found::Refused(_, Part::Tree) => &mut self.tree,
            Found::Refused(_, Part::Place) => &mut self.place,
        };
        *count = count.saturating_add(1);
    }
}

impl fmt::Display for Counts {
    fn fmt<W: fmt::Write>(&self, f: &mut fmt::Formatter<W>) -> fmt::Result {
        let Counts {
            opened,
            unformatted,
            small,
            parameters,
            ..
        } = *self;
        let (log, page, tree, place) = (self.log, self.page, self.tree, self.place);
        write!(
            f,
            "opened {opened}, refused with 14 {unformatted}, 17 {small}, 18 {parameters}, 13 "
        )?;
        write!(
            f,
            "for the log {log}, a page {page}, the tree {tree}, a place {place}"
        )
    }
}
