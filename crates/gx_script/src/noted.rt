//! Readers and writers, each with how its last call ended.
ghost use Rattle.std.specs.Prelude.{◌≡◌, ◌≢◌, ◌+◌, ◌-◌, ◌^◌, ◌<◌, min, length, Some, None, IfErr, IsSome};
ghost use Rattle.std.specs.IoError.{error_kind};
ghost use Rattle.gx_script.specs.Noting.{IsGiven, IsTaken, IsTransfer, IsError};

use std::io::{self, ErrorKind, Read, Write};

/// How a call of a reader or a writer ended.
#[derive(Clone, Copy, Debug, PartialEq, Eq)]
pub enum Transfer {
    /// It was interrupted, and is to be made again.
    Interrupted,
    /// It moved no byte: the reader is at its end, or the writer takes no more.
    Nothing,
    /// It moved so many bytes, at least one.
    Moved(usize),
    /// It failed.
    Failed,
}

/// A reader or a writer, with how its last call ended.
#[derive(Drop)]
pub struct Noted<T> {
    /// The reader or writer itself.
    pub inner: T,
    /// How its last call ended, if one was made.
    pub last: Option<Transfer>,
    /// The kind of the last error that it gave, if it gave one.
    pub kind: Option<ErrorKind>,
    /// How many calls were made, as far as a `u64` counts.
    pub calls: u64,
}

impl<T> Noted<T> {
    /// Wraps a reader or a writer of which no call was made yet.
    pub fn new(inner: T) -> Self
        ensures { result ≡ record { inner = inner; last = None; kind = None; calls = 0 } }
    {
        Noted {
            inner,
            last: None,
            kind: None,
            calls: 0,
        }
    }

    // Notes how a call ended.
    fn note(&mut self, ended: io::Result<usize>) -> Transfer
        ensures transfer { IsTransfer error_kind ErrorKind.Interrupted ended result }
        ensures inner { self.new.inner ≡ self.old.inner }
        ensures last { self.new.last ≡ Some result }
        ensures kind { IfErr ended (λ error. self.new.kind ≡ Some (error_kind error)) }
        ensures calls { self.new.calls ≡ min (self.old.calls + 1) (2 ^ 64 - 1) }
    {
        let transfer = match ended {
            Ok(0) => Transfer::Nothing,
            Ok(count) => Transfer::Moved(count),
            Err(error) => {
                let kind = error.kind();
                self.kind = Some(kind);
                transfer_of(kind)
            }
        };
        self.last = Some(transfer);
        self.calls = self.calls.saturating_add(1);
        transfer
    }
}

// how a call ended that gave an error of this kind
fn transfer_of(kind: ErrorKind) -> Transfer
    ensures { IsError ErrorKind.Interrupted kind result }
{
    if kind == ErrorKind::Interrupted {
        Transfer::Interrupted
    } else {
        Transfer::Failed
    }
}

impl<R: Read> Noted<R> {
    /// Reads once into a buffer that has room, and notes how that ended. What was moved is at the buffer's front.
    pub fn read(&mut self, buffer: &mut [u8]) -> Transfer
        requires { 0 < length buffer.old }
        ensures given { IsGiven (R.remaining self.old.inner) (R.remaining self.new.inner) buffer.new result }
        ensures last { self.new.last ≡ Some result }
        ensures kind { result ≡ Transfer.Failed → IsSome self.new.kind }
        ensures calls { self.new.calls ≡ min (self.old.calls + 1) (2 ^ 64 - 1) }
    {
        let ended = self.inner.read(buffer);
        self.note(ended)
    }
}

impl<W: Write> Noted<W> {
    /// Writes once, and notes how that ended. The bytes that were written are at the front.
    pub fn write(&mut self, bytes: &[u8]) -> Transfer
        ensures taken { IsTaken (W.contents self.old.inner) (W.contents self.new.inner) bytes.now result }
        ensures last { self.new.last ≡ Some result }
        ensures kind { result ≡ Transfer.Failed → IsSome self.new.kind }
        ensures calls { self.new.calls ≡ min (self.old.calls + 1) (2 ^ 64 - 1) }
    {
        let ended = self.inner.write(bytes);
        self.note(ended)
    }
}
