//! Changes of a tree's pages, each with its log record: a call makes one step of the tree and appends its record, or
//! changes nothing.

mod add;
mod descend;
mod set_mark;
mod split;
mod split_root;
mod sweep;
