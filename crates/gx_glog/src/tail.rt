//! How far the places of the log were written: from its tail on each reads zero, so a body is written no farther.
ghost use Rattle.std.specs.Prelude.{◌≡◌, ◌*◌, ◌≤◌, ◌<◌};
ghost use Rattle.gx_glog.specs.Tails.{place_of, tail_of, trimmed, unknown_tails, widened};

use crate::extent::{BODY_SECTORS, Extent, PLACES};
use std::marker::Model;

// How many places the two extents have.
const ALL_PLACES: usize = 2 * PLACES as usize;

/// For each place of both extents the sector of it at which its tail begins.
#[derive(Drop)]
pub(crate) struct Tails {
    first: [u8; ALL_PLACES],
}

impl Model for Tails {
    ghost use Rattle.std.specs.Prelude.{List, ℕ};
    ghost use Rattle.gx_glog.specs.Tails.{AreTails};

    ghost Value = { List ℕ };

    ghost view = { λ t. t.first };

    ghost invariant = { λ t. AreTails t.first };
}

// Which of the log's places an extent's place k is.
fn place(extent: Extent, k: u8) -> usize
    requires { k < PLACES }
    ensures place { result ≡ place_of extent k }
    ensures bound { result < 2 * PLACES }
{
    match extent {
        Extent::A => usize::from(k),
        Extent::B => usize::from(PLACES + k),
    }
}

impl Tails {
    /// The tails of a log of which nothing is known: no place has one.
    #[tactic(auto, unfolding(crate::specs::Tails::unknown_tails))]
    pub(crate) fn unknown() -> Tails
        ensures { result ≡ unknown_tails }
    {
        Tails {
            first: [BODY_SECTORS as u8; ALL_PLACES],
        }
    }

    /// The sector of its place k at which its tail begins.
    pub(crate) fn of(&self, extent: Extent, k: u8) -> u8
        requires { k < PLACES }
        ensures tail { result ≡ tail_of self.now extent k }
        ensures bound { result ≤ BODY_SECTORS }
    {
        self.first[place(extent, k)]
    }

    /// Notes that so many sectors of a place will be written: its tail begins after them, or where it did, if that is
    /// farther on.
    pub(crate) fn widen(&mut self, extent: Extent, k: u8, sectors: u8)
        requires place { k < PLACES }
        requires bound { sectors ≤ BODY_SECTORS }
        ensures { self.new ≡ widened extent k sectors self.old }
    {
        let i = place(extent, k);
        self.first[i] = self.first[i].max(sectors);
    }

    /// Notes that a place's body is synced: its tail begins after the so many sectors that the body's records take.
    pub(crate) fn trim(&mut self, extent: Extent, k: u8, sectors: u8)
        requires place { k < PLACES }
        requires bound { sectors ≤ BODY_SECTORS }
        ensures { self.new ≡ trimmed extent k sectors self.old }
    {
        self.first[place(extent, k)] = sectors;
    }
}
