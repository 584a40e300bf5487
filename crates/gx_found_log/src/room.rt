//! The memory that reading a log takes, taken before anything is read.
ghost use Rattle.std.specs.Prelude.{◌≡◌, length, IfOk, IfErr};
ghost use Rattle.gx_found_log.specs.Found.{IsUnread};
ghost use Rattle.gx_glog.specs.declared.extent.TheConstants.{BODY_SIZE};

use crate::Gathered;
use gx_geom::Refusal;
use gx_glog::BODY_SIZE;
use std::alloc::{AllocError, Global};
use std::marker::Model;

/// All memory that reading a log takes, 7.9 MB: for what the log says, for the pages that it gives, and for a body.
#[derive(Drop)]
pub struct LogRoom<E> {
    gathered: Gathered<E>,
    body: Vec<u8>,
}

impl<E> Model for LogRoom<E> {
    ghost use Rattle.std.specs.Prelude.{◌≡◌, length};
    ghost use Rattle.gx_found_log.specs.Found.{IsUnread};
    ghost use Rattle.gx_glog.specs.declared.extent.TheConstants.{BODY_SIZE};

    ghost Value = { Unit {0} };

    ghost view = { λ r. tt };

    ghost invariant = { λ r. (length r.body.items ≡ BODY_SIZE) × IsUnread r.gathered };
}

// A buffer for a body.
fn blank_body(alloc: Global) -> Result<Vec<u8>, AllocError>
    ensures { IfOk result (λ bytes. length bytes.items ≡ BODY_SIZE) }
{
    vec![in alloc; 0; BODY_SIZE]
}

impl<E: Copy + Ord> LogRoom<E> {
    /// Takes it. Refused with `Memory`.
    pub fn new(alloc: Global) -> Result<LogRoom<E>, Refusal>
        ensures { IfErr result (λ why. why ≡ Refusal.Memory) }
    {
        let gathered = Gathered::new(alloc)?;
        match blank_body(alloc) {
            Ok(body) => Ok(LogRoom { gathered, body }),
            Err(_) => Err(Refusal::Memory),
        }
    }

    // Its parts: nothing is gathered.
    pub(crate) fn parts(self) -> (Gathered<E>, Vec<u8>)
        ensures unread { IsUnread result.0 }
        ensures body { length result.1.items ≡ BODY_SIZE }
    {
        let LogRoom { gathered, body } = self;
        (gathered, body)
    }
}
