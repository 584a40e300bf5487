//! The note of an entry that an open transaction wrote, which goes into the head.
ghost use Rattle.std.specs.Prelude.{◌≡◌};
ghost use Rattle.gx_record.specs.Rec.{Note};
ghost use Rattle.gx_storage.specs.Setting.{IsPutFirstAs};

use crate::journal::Journal;
use crate::journal::mark::mark_of;
use gx_class::ReadKeys;
use gx_durable::OfClass;
use gx_durable::calls::put_first;
use gx_glog::{Appended, Stage};
use gx_record::Record;

impl<K: ReadKeys> Journal<K> {
    /// Appends the note to the head, with the entry's mark from before and the leaf on which it was last written.
    /// `NoRoom` if the body has no room for it, or a turn is under way; nothing changes then.
    pub(crate) fn put_note(
        &mut self,
        transaction: u64,
        row: u64,
        key: K::Key,
        before: bool,
        leaf: u32,
    ) -> Appended
        requires { self.old.log.stage ≡ Stage.Idle }
        ensures { IsPutFirstAs K.Key.Shape K.ReadKeys (Note transaction row (K.spelling key) before leaf)
            self.old self.new result }
    {
        K::known(&key);
        let spelled: &mut [u8] = &mut self.key;
        K::encode(key, spelled);
        put_first::<OfClass<K>>(
            &mut self.log,
            &Record::Note {
                tx: transaction,
                row,
                key: spelled,
                before: mark_of(before),
                leaf,
            },
        )
    }
}
