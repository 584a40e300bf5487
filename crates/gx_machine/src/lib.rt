//! The set machine: calls and replies, and what a run of them is; and what both indexes' tables of locks use: entries
//! in order, matching, and the least session that conflicts.
//!
//! The definitions in `specs/` say which reply each call gets. They know sets of entries and what each
//! session holds, and no tree, page, log or device.
#![tactic(auto)]

mod call;
mod entry;
mod item;
pub mod laws;
mod least;
mod limits;
mod queries;
mod query;
mod reply;
mod same;
mod sets;

pub use call::Call;
pub use entry::{Entries, Entry};
pub use item::Item;
pub use least::{Conflicts, least_conflicting};
pub use limits::{LAST_NUMBER, MAX_CLAIMS, MAX_PREDICATES, SESSIONS};
pub use queries::{is_same_query, matches};
pub use query::Query;
pub use reply::{Asked, Reply};
pub use same::is_same_reply;
pub use sets::{
    exclude, exclude_all, find, has, has_in_order, include, include_all, include_within_capacity,
    is_same, put_in_order,
};
