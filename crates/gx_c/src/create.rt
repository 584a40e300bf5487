//! Creates and frees what a handle has.
ghost use Rattle.std.specs.Prelude.{◌≡◌, ◌⊎◌, [], None, Some};
ghost use Rattle.gx_c.specs.Stages.{IsCreated};
ghost use Rattle.gx_c.specs.declared.held.Stage.TheVariants.{Empty};

use crate::handle::Handle;
use crate::held::{Held, Stage};
use crate::status::MEMORY;
use gx_queue_disk::CallQueue;
use std::alloc::Global;

/// Creates what a handle has: nothing came yet, and no call waits. The status is 10 if there is no memory for it; the
/// handle has nothing then.
#[unsafe(no_mangle)]
pub extern "C" fn gx_c_create(alloc: Global, handle: &mut Handle) -> u16
    requires { handle.old.held ≡ None }
    ensures { ((result ≡ 0) × (handle.new.held ≡ Some (record { stage = Empty; calls = [] })))
        ⊎ ((result ≡ 10) × (handle.new.held ≡ None)) }
{
    let held = Held {
        stage: Stage::Empty,
        calls: CallQueue::new(alloc),
    };
    match Box::new(alloc, held) {
        Ok(held) => {
            handle.put(held);
            0
        }
        Err(lost) => {
            drop(lost);
            MEMORY
        }
    }
}

/// Frees what a handle has. What its index logged and no call settled is lost.
#[unsafe(no_mangle)]
pub extern "C" fn gx_c_free(alloc: Global, handle: &mut Handle)
    requires { IsCreated handle.old.held }
    ensures { handle.new.held ≡ None }
{
    drop(handle.take(alloc));
}
