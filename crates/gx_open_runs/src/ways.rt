//! The ways in which a call of a device fails, and what a crash leaves then.
use gx_disk::{Fuse, MemDisk, Torn};

/// What a crash leaves of the sectors that weren't synced.
#[derive(Clone, Copy)]
pub(crate) enum Left {
    Old,
    New,
    Mixed,
    Torn,
}

impl Left {
    /// All that there are.
    pub(crate) const ALL: [Left; 4] = [Left::Old, Left::New, Left::Mixed, Left::Torn];

    /// Crashes a device so.
    pub(crate) fn crash(self, disk: &mut MemDisk) {
        match self {
            Left::Old => disk.crash(&[]),
            Left::New => disk.crash(&[Torn::New]),
            Left::Mixed => disk.crash(&[Torn::Old, Torn::New]),
            Left::Torn => disk.crash(&[Torn::Bytes([0xA7; 512])]),
        }
    }
}

/// How a call fails: whether those after it fail too, whether it is made if it is a write, and the crash that comes
/// then, if one does.
#[derive(Clone, Copy)]
pub(crate) struct Way {
    pub(crate) fuse: Fuse,
    pub(crate) is_done: bool,
    pub(crate) left: Option<Left>,
}

impl Way {
    /// A device that stops for good, and a crash.
    pub(crate) fn stop(is_done: bool, left: Left) -> Way {
        Way {
            fuse: Fuse::ForEver,
            is_done,
            left: Some(left),
        }
    }

    /// A device that fails, without a crash.
    pub(crate) fn fail(fuse: Fuse, is_done: bool) -> Way {
        Way {
            fuse,
            is_done,
            left: None,
        }
    }

    /// Stops with each crash, of a call that is made, and of one that isn't.
    pub(crate) fn stops() -> [Way; 8] {
        [
            Way::stop(false, Left::Old),
            Way::stop(false, Left::New),
            Way::stop(false, Left::Mixed),
            Way::stop(false, Left::Torn),
            Way::stop(true, Left::Old),
            Way::stop(true, Left::New),
            Way::stop(true, Left::Mixed),
            Way::stop(true, Left::Torn),
        ]
    }

    /// Failures, once or for ever, of a call that is made, and of one that isn't.
    pub(crate) fn fails() -> [Way; 4] {
        [
            Way::fail(Fuse::Once, false),
            Way::fail(Fuse::Once, true),
            Way::fail(Fuse::ForEver, false),
            Way::fail(Fuse::ForEver, true),
        ]
    }
}
