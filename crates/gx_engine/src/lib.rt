//! An index at work: the calls of up to eight sessions over pages with their log, one event at a time; and loops of
//! events: a session's call to its end, or one event until nothing is left to do.
#![tactic(auto)]

mod asks;
mod checkpoint;
mod checkpoints;
mod commits;
mod drain;
mod driven;
mod engine;
mod flusher;
mod heads;
pub mod laws;
mod looks;
mod losers;
mod pages;
mod refusals;
mod repeated;
mod searches;
mod start;
mod step;
mod sweeps;
mod undoes;
mod work;
mod writes;

pub use checkpoint::Checkpoint;
pub use driven::{EVENTS, drive};
pub use engine::Engine;
pub use gx_events::{Event, Need, Outcome};
pub use pages::NotLent;
pub use repeated::repeat;
pub use start::{NotOpened, Start};
pub use work::Work;
