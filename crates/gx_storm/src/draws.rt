//! Random calls.
ghost use Rattle.std.specs.Prelude.{◌<◌};

use gx_geom::Box2;
use gx_machine::{Call, Entry, Query, Reply};
use rand_core::SeedableRng;
use rand_core::utils::NextWord;
use rand_pcg::Pcg32;

/// The random state of a session.
#[derive(Drop)]
pub(crate) struct Draws {
    words: Pcg32,
    begun: bool,
}

impl Draws {
    /// Starts from this seed, with no transaction begun.
    pub(crate) fn new(seed: u64) -> Self {
        Draws {
            words: Pcg32::seed_from_u64(seed),
            begun: false,
        }
    }

    /// A random number below this one.
    fn below(&mut self, count: u32) -> u32
        requires { 0 < count }
        ensures { result < count }
    {
        self.words.next_word() % count
    }

    /// A random box of up to five by five, in a space small enough that sessions' boxes meet now and then.
    fn place(&mut self) -> Box2 {
        let (x, y) = (self.below(48) as i32, self.below(48) as i32);
        let (wide, high) = (self.below(6) as i32, self.below(6) as i32);
        match Box2::new(x, y, x.saturating_add(wide), y.saturating_add(high)) {
            Ok(key) => key,
            Err(_) => Box2::point(x, y),
        }
    }

    /// A random call of any kind. Outside of a transaction most begin one.
    pub(crate) fn call(&mut self) -> Call<Box2> {
        let kind = self.below(16);
        let row = u64::from(self.below(4));
        let key = self.place();
        if !self.begun && kind < 14 {
            return Call::Begin;
        }
        match kind {
            0..=5 => Call::Insert(Entry { row, key }),
            6 | 7 => Call::Delete(Entry { row, key }),
            8 => Call::Search(Query::Overlap(key)),
            9 => Call::Search(Query::Within(key)),
            10 => Call::Search(Query::Equal(key)),
            11 | 12 | 14 => Call::Commit,
            13 => Call::Abort,
            _ => Call::Begin,
        }
    }

    /// Notes from a call and its reply whether a transaction is open.
    pub(crate) fn see(&mut self, reply: &Reply<Box2>) {
        match reply {
            Reply::Ok => self.begun = true,
            Reply::Committed(_) | Reply::Aborted => self.begun = false,
            _ => {}
        }
    }
}
