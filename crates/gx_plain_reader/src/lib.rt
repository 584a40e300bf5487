//! A reader of a device's bytes, plain and slow, for tests: what an image stands for, by its sectors, its log and its
//! pages alone. It looks at everything, keeps lists and searches them one by one, and shares no code with the index
//! that writes a device: the two are compared. It uses no frames and no descents.
#![tactic(auto)]

mod bytes;
mod damage;
mod finding;
mod image;
mod key;
mod log;
mod page;
mod records;
mod rules;
mod set;
mod small;
mod tree;

pub use damage::Damage;
pub use finding::{Finding, Part};
pub use image::{Parameters, Reading, findings, read};
pub use key::{Entry, Key};
pub use page::{Child, Node, Pair};
