//! The pages that have an image in the selected extent of the log.
ghost use Rattle.std.specs.Prelude.{◌≡◌};
ghost use Rattle.gx_storage.specs.Imaged.{imaged_after, is_imaged, with_imaged};

use gx_geom::Refusal;
use gx_glog::Turn;
use std::marker::Model;

/// A bit a page, by its number less one.
#[derive(Drop)]
pub(crate) struct Imaged {
    bits: Vec<bool>,
}

impl Model for Imaged {
    ghost use Rattle.std.specs.Prelude.{Bool, List};

    ghost Value = { List Bool };

    ghost view = { λ m. m.bits.items };
}

impl Imaged {
    /// The pages whose bits are set.
    pub(crate) fn of(bits: Vec<bool>) -> Imaged
        ensures { result ≡ bits.items }
    {
        Imaged { bits }
    }

    /// Whether a page's bit is set.
    pub(crate) fn has(&self, page: u32) -> bool
        ensures { result ≡ is_imaged self.now page }
    {
        let Some(place) = page.checked_sub(1) else {
            return false;
        };
        let place = place as usize;
        place < self.bits.len() && self.bits[place]
    }

    /// Sets the bit of a page of which an image was appended.
    pub(crate) fn note(&mut self, page: u32)
        ensures { self.new ≡ with_imaged page self.old }
    {
        let Some(place) = page.checked_sub(1) else {
            return;
        };
        let place = place as usize;
        if place < self.bits.len() {
            self.bits[place] = true;
        }
    }

    /// Clears all bits after a turn's last call: the extent that is then selected has no image.
    pub(crate) fn forget_after(&mut self, told: &Result<Turn, Refusal>)
        ensures { self.new ≡ imaged_after told.now self.old }
    {
        match told {
            Ok(Turn::Done) => self.bits.fill(false),
            Ok(
                Turn::Closed
                | Turn::Body
                | Turn::BodySync
                | Turn::Gate
                | Turn::GateSync
                | Turn::Selector,
            )
            | Err(_) => {}
        }
    }
}
