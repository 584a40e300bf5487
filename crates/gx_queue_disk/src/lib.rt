//! A device in memory that keeps the calls that it made in a queue until they are taken, so that another program can
//! make the same calls of a file.
#![tactic(auto)]

mod disk;
mod image;
mod past;
mod queue;
mod queues;

pub use disk::QueueDisk;
pub use image::Image;
pub use queue::{CallQueue, DeviceCall};
pub use queues::QueuesCalls;
