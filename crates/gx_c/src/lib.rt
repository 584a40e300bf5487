//! An index in process, for programs in C: functions over a handle that has a device in memory and the index on it.
//!
//! The device keeps its writes and syncs in a queue, from which C takes them and makes them of its file. So C may
//! hand a call's result on once it has made the calls that wait. A status is 0 or the number of a refusal, and for
//! `Busy` 256 times the session besides.
#![tactic(auto)]

mod bytes;
mod create;
mod drain;
mod entries;
mod events;
mod format;
mod handle;
mod held;
mod loose;
mod open;
mod opened;
mod rest;
mod searches;
mod sent;
mod status;
mod told;
mod transactions;
mod verify;

pub use bytes::{gx_c_append, gx_c_device, gx_c_reserve};
pub use create::{gx_c_create, gx_c_free};
pub use drain::{SentCall, gx_c_next};
pub use entries::{gx_c_delete, gx_c_delete3, gx_c_insert, gx_c_insert3};
pub use events::{SentEvent, SentOutcome, gx_c_step};
pub use format::{gx_c_class, gx_c_format, gx_c_format3};
pub use handle::Handle;
pub use open::{gx_c_close, gx_c_open, gx_c_open3, gx_c_settle};
pub use searches::{gx_c_more, gx_c_more3, gx_c_search, gx_c_search3};
pub use sent::{SentBox, SentBox3, SentCount, SentEntry, SentEntry3};
pub use transactions::{gx_c_abort, gx_c_begin, gx_c_commit};
pub use verify::{SentReport, gx_c_verify, gx_c_verify3};
