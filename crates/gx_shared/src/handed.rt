//! Replies for a caller, with a copy for the record.
ghost use Rattle.std.specs.Prelude.{◌≡◌, IfOk, ⊤};
ghost use Rattle.gx_shared.specs.Books.{IsHanded};

use gx_geom::{Refusal, Shape};
use gx_machine::{Entries, Entry, Reply};
use std::alloc::{AllocError, Global};

/// A copy of what a search found.
fn copied<B: Shape>(alloc: Global, entries: &[Entry<B>]) -> Result<Vec<Entry<B>>, AllocError>
    ensures { IfOk result (λ copy. copy.items ≡ entries.now) }
{
    let mut copy = Vec::with_capacity(alloc, entries.len())?;
    copy.extend_from_slice(entries)?;
    Ok(copy)
}

/// Returns a reply for the caller and the same one for the record. If a search's result can't be copied because memory
/// is refused, both are `Memory`; every other reply is copied without taking memory.
pub(crate) fn handed<B: Shape>(alloc: Global, reply: Reply<B>) -> (Reply<B>, Reply<B>)
    ensures same { result.1 ≡ result.0 }
    ensures handed { IsHanded reply result.0 }
{
    match reply {
        Reply::Ok => (Reply::Ok, Reply::Ok),
        Reply::Inserted => (Reply::Inserted, Reply::Inserted),
        Reply::Deleted => (Reply::Deleted, Reply::Deleted),
        Reply::Found(entries) => match copied(alloc, entries.as_slice()) {
            Ok(copy) => (Reply::Found(entries), Reply::Found(Entries::new(copy))),
            Err(AllocError) => (
                Reply::Refused(Refusal::Memory),
                Reply::Refused(Refusal::Memory),
            ),
        },
        Reply::Committed(number) => (Reply::Committed(number), Reply::Committed(number)),
        Reply::Aborted => (Reply::Aborted, Reply::Aborted),
        Reply::Refused(why) => (Reply::Refused(why), Reply::Refused(why)),
    }
}
