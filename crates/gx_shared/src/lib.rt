//! Sessions in threads over one engine: a lock guards the engine and the record of its calls.
//!
//! One hold of the lock applies one event, which the engine makes once. `Book` is what the lock guards. Its invariant
//! says, if the engine's assumptions hold, that its record, replayed from the engine's first machine, gives the
//! engine's present one. `Session` counts its own finished calls by its part of a ledger.
#![tactic(auto)]

mod agree;
mod between;
mod book;
mod call;
mod flush;
mod handed;
mod hold;
pub mod laws;
mod record;
mod run;
mod session;
mod shared;
mod trail;
mod turns;

pub use between::{Between, NoBetween};
pub use book::Book;
pub use call::flusher;
pub use record::RECORD;
pub use run::Run;
pub use session::Session;
pub use shared::Shared;
