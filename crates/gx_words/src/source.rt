//! The arguments that the program is called with.
ghost use Rattle.std.specs.Prelude.{◌≡◌, ◌≤◌, None, Some, IfErr, IfOk, length, vec_len};
ghost use Rattle.gx_words.specs.Source.{IsLast, IsWord, Stopped};

use std::alloc::Global;
use std::env::FillError;
use std::rt::Env;

/// Why the arguments couldn't be read.
#[derive(Clone, Copy, Debug, PartialEq, Eq)]
pub enum WordsFault {
    /// The argument at this place isn't text; the program's own name is at place 0.
    NotText(usize),
    /// Memory was refused.
    Memory,
}

/// The system's reply to a request for an argument.
#[derive(Clone, Copy)]
pub struct Answer {
    /// The place that was asked for.
    pub place: usize,
    /// How many bytes the argument has; or that there is none, or that it is longer than the buffer.
    pub length: Result<usize, FillError>,
}

/// The source of the program's arguments, with the system's last reply.
#[derive(Drop)]
pub struct Source<R> {
    env: R,
    last: Option<Answer>,
}

impl<R: Env> Source<R> {
    /// A source that wasn't asked yet.
    pub fn new(env: R) -> Source<R>
        ensures { result ≡ record { env = env; last = None } }
    {
        Source { env, last: None }
    }

    // Asks for the argument at this place, and notes the reply. If the buffer has room for it, its bytes are at the
    // front.
    fn ask(&mut self, place: usize, room: &mut [u8]) -> Result<usize, FillError>
        ensures noted { self.new.last ≡ Some (record { place = place; length = result }) }
        ensures bound { IfOk result (λ n. n ≤ length room.new) }
    {
        let length = self.env.arg(place, room);
        self.last = Some(Answer { place, length });
        length
    }

    // The bytes of the argument at this place, if there is one: as many as the system says.
    fn word(&mut self, alloc: Global, place: usize) -> Result<Option<Vec<u8>>, WordsFault>
        ensures word { IfOk result (IsWord place self.new.last) }
        ensures stopped { IfErr result (λ fault. Stopped fault self.new.last) }
    {
        let mut room = 64;
        for _longer in 0..32 {
            let mut bytes = Vec::from_elem(alloc, 0u8, room).map_err(|_| WordsFault::Memory)?;
            match self.ask(place, &mut bytes) {
                Ok(length) => {
                    bytes.truncate(length);
                    return Ok(Some(bytes));
                }
                Err(FillError::NotPresent) => return Ok(None),
                Err(FillError::TooLong) => room = room.saturating_mul(2),
            }
        }
        Err(WordsFault::Memory)
    }
}

/// Reads the arguments that the program was called with, its own name first: each in its place, up to the first place
/// for which the system has none. Refused with `NotText` and the place of the first that isn't text, and with `Memory`
/// if memory for them is refused.
pub fn given<R: Env>(source: &mut Source<R>, alloc: Global) -> Result<Vec<String>, WordsFault>
    ensures whole { IfOk result (λ words. IsLast (vec_len words) source.new.last) }
    ensures stopped { IfErr result (λ fault. Stopped fault source.new.last) }
{
    let mut words = Vec::new(alloc);
    for place in 0..usize::MAX {
        let Some(bytes) = source.word(alloc, place)? else {
            return Ok(words);
        };
        let Ok(word) = String::from_utf8(bytes) else {
            return Err(WordsFault::NotText(place));
        };
        words.push(word).map_err(|_| WordsFault::Memory)?;
    }
    Err(WordsFault::Memory)
}
