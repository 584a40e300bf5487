//! What holds a session's call between two events.
use gx_shared::Between;
use std::sync::atomic::{AtomicBool, AtomicU64, Ordering};
use std::thread;

/// How many yielding turns a hold lasts at most.
const TURNS: u32 = 1_000_000;

/// Whether a flag is set within so many turns.
fn comes(flag: &AtomicBool) -> bool {
    for _ in 0..TURNS {
        if flag.load(Ordering::SeqCst) {
            return true;
        }
        thread::yield_now();
    }
    false
}

/// Holds a call after one of its events, until it is released, and counts its events.
#[derive(Drop)]
pub struct Hold {
    after: u64,
    reached: AtomicBool,
    free: AtomicBool,
    late: AtomicBool,
    last: AtomicU64,
    events: AtomicU64,
}

impl Hold {
    /// A hold after the event of this step.
    pub fn new(after: u64) -> Self {
        Hold {
            after,
            reached: AtomicBool::new(false),
            free: AtomicBool::new(false),
            late: AtomicBool::new(false),
            last: AtomicU64::new(0),
            events: AtomicU64::new(0),
        }
    }

    /// Waits until the call is held; false if it isn't, within a million turns.
    pub fn is_reached(&self) -> bool {
        comes(&self.reached)
    }

    /// Lets the call go on.
    pub fn let_go(&self) {
        self.free.store(true, Ordering::SeqCst);
    }

    /// Whether the call went on before it was released.
    pub fn was_late(&self) -> bool {
        self.late.load(Ordering::SeqCst)
    }

    /// The last step, and the number of events.
    pub fn steps(&self) -> (u64, u64) {
        (
            self.last.load(Ordering::SeqCst),
            self.events.load(Ordering::SeqCst),
        )
    }
}

impl Between for Hold {
    fn between(&self, _session: u8, step: u64) {
        self.last.store(step, Ordering::SeqCst);
        self.events.fetch_add(1, Ordering::SeqCst);
        if step == self.after {
            self.reached.store(true, Ordering::SeqCst);
            if !comes(&self.free) {
                self.late.store(true, Ordering::SeqCst);
            }
        }
    }
}
