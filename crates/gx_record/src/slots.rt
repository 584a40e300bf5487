//! The slots of a sweep, lent.
ghost use Rattle.std.specs.Prelude.{◌≡◌, length, slice_get};
ghost use Rattle.gx_record.specs.Seen.{slots};
ghost use Rattle.gx_record.specs.Slots.{rise_from, slots_bytes, slots_in};

use crate::sizes::SLOT_NUMBER;

/// The slots of a sweep, spelled in bytes that are borrowed: two bytes a slot, the greater first. A last byte
/// alone isn't read. In a record in range there are 1 to 100 slots, and each is greater than the one before.
#[derive(Clone, Copy, PartialEq, Eq)]
pub struct Slots<'a> {
    pub bytes: &'a [u8],
}

/// The bytes without a last one alone.
pub(crate) fn whole_slots(bytes: &[u8]) -> &[u8]
    ensures { result.now ≡ slots_bytes (slots_in bytes.now) }
{
    let size = SLOT_NUMBER * (bytes.len() / SLOT_NUMBER);
    &bytes[..size]
}

impl<'a> Slots<'a> {
    /// How many slots there are.
    pub fn count(&self) -> usize
        ensures { result ≡ length (slots self.now) }
    {
        self.bytes.len() / SLOT_NUMBER
    }

    /// The slot at a place, counted from 0. None after the last.
    pub fn get(&self, place: usize) -> Option<u16>
        ensures { result ≡ slice_get (slots self.now) place }
    {
        let size = self.bytes.len();
        if size / SLOT_NUMBER <= place {
            return None;
        }
        let at = SLOT_NUMBER * place;
        Some(u16::from_be_bytes([self.bytes[at], self.bytes[at + 1]]))
    }

    /// Whether each slot is greater than the one before.
    pub fn rise(&self) -> bool
        ensures { result ≡ rise_from 0 (slots self.now) }
    {
        let mut bytes = self.bytes;
        let mut least = 0;
        while let [high, low, rest @ ..] = bytes {
            let slot = u32::from(u16::from_be_bytes([*high, *low]));
            if slot < least {
                return false;
            }
            bytes = rest;
            least = slot + 1;
        }
        true
    }
}
