//! The records of a log's first batch, as the body that is written of them.
ghost use Rattle.std.specs.Prelude.{◌≡◌, ◌+◌, ◌-◌, ◌^◌, ◌≤◌, ◌<◌, ◌++◌, ℕ, List, [], length, ◌↔◌};
ghost use Rattle.std.specs.Prelude.{IsTrue, IsSome, OnSome, IfSome, IfNone, IfOk, drop, replicate};
ghost use Rattle.std.specs.Bool.{OnTrue, OnFalse};
ghost use Rattle.gx_disk.specs.Sectors.{put};
ghost use Rattle.gx_record.specs.Bytes.{u32_bytes};
ghost use Rattle.gx_record.specs.Format.{IsInRange, spelling};
ghost use Rattle.gx_record.specs.Seen.{rec_of};
ghost use Rattle.gx_glog.specs.declared.extent.TheConstants.{BODY_ROOM};
ghost use Rattle.gx_glog.specs.Bodies.{IsBody, IsZero};

use gx_glog::BODY_SIZE;
use gx_record::Record;
use std::alloc::{AllocError, Global};
use std::marker::Model;

// How many bytes come before the records.
const SIZE_BYTES: usize = 4;

/// The records of a batch: their size, their bytes, and zeros up to the body's end.
#[derive(Drop)]
pub(crate) struct Buffer {
    bytes: Vec<u8>,
    end: usize,
}

impl Model for Buffer {
    ghost use Rattle.std.specs.Prelude.{ℕ, List, ◌-◌, take, drop};
    ghost use Rattle.gx_glog.specs.Bodies.{IsFilled};

    ghost Value = { List ℕ };

    ghost view = { λ b. take (b.end - 4) (drop 4 b.bytes.items) };

    ghost invariant = { λ b. IsFilled b.end b.bytes.items };
}

// So many zeros.
fn zeros(alloc: Global, size: usize) -> Result<Vec<u8>, AllocError>
    ensures size { IfOk result (λ bytes. length bytes.items ≡ size) }
    ensures zeros { IfOk result (λ bytes. IsZero bytes.items) }
{
    let mut bytes = Vec::new(alloc);
    bytes.resize(size, 0)?;
    Ok(bytes)
}

// Writes a record's spelling from a place on, and returns its size. None if there is no room for it.
#[tactic(auto, using(gx_glog::proofs::Fills::put_tail), unfolding(gx_disk::specs::Sectors::put))]
fn put_at(buffer: &mut Vec<u8>, end: usize, logged: &Record<'_>) -> Option<usize>
    requires in_range { IsInRange (rec_of logged.now) }
    requires inside { end ≤ length buffer.old.items }
    ensures size { IfSome result (λ n. n ≡ length (spelling (rec_of logged.now))) }
    ensures room { IsSome result ↔ (end + length (spelling (rec_of logged.now)) ≤ length buffer.old.items) }
    ensures put { OnSome result (buffer.new.items ≡ put end (spelling (rec_of logged.now)) buffer.old.items) }
    ensures full { IfNone result (buffer.new.items ≡ buffer.old.items) }
{
    logged.encode_into(&mut buffer[end..])
}

// Puts bytes over those from a place on.
#[tactic(auto, unfolding(gx_disk::specs::Sectors::put))]
fn overwrite(buffer: &mut Vec<u8>, at: usize, bytes: &[u8])
    requires { at + length bytes.now ≤ length buffer.old.items }
    ensures { buffer.new.items ≡ put at bytes.now buffer.old.items }
{
    buffer[at..at + bytes.len()].copy_from_slice(bytes);
}

// Writes how many bytes of records there are.
#[tactic(auto, unfolding(gx_record::specs::Bytes::u32_bytes))]
fn put_size(buffer: &mut Vec<u8>, size: u32)
    requires { 4 ≤ length buffer.old.items }
    ensures { buffer.new.items ≡ put 0 (u32_bytes size) buffer.old.items }
{
    overwrite(buffer, 0, &size.to_be_bytes());
}

impl Buffer {
    /// A buffer with no records.
    pub(crate) fn new(alloc: Global) -> Result<Buffer, AllocError>
        ensures { IfOk result (λ buffer. buffer ≡ []) }
    {
        Ok(Buffer {
            bytes: zeros(alloc, BODY_SIZE)?,
            end: SIZE_BYTES,
        })
    }

    /// Appends a record. Returns false if there is no room for it, and nothing changes then.
    pub(crate) fn push(&mut self, logged: &Record<'_>) -> bool
        requires { IsInRange (rec_of logged.now) }
        ensures put { OnTrue result ((length self.old + length (spelling (rec_of logged.now)) ≤ BODY_ROOM)
            × (self.new ≡ self.old ++ spelling (rec_of logged.now))) }
        ensures full { OnFalse result ((BODY_ROOM < length self.old + length (spelling (rec_of logged.now)))
            × (self.new ≡ self.old)) }
    {
        match put_at(&mut self.bytes, self.end, logged) {
            Some(size) => {
                self.end += size;
                put_size(&mut self.bytes, (self.end - SIZE_BYTES) as u32);
                true
            }
            None => false,
        }
    }

    /// The body's bytes.
    pub(crate) fn body(&self) -> &[u8]
        ensures { IsBody self.now result.now }
    {
        &self.bytes
    }
}
