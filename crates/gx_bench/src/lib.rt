//! Parts of the index as C functions, for the benchmarks: the split of boxes, records of the log, the scan of leaves,
//! and the choice of a child.
#![tactic(auto)]

mod choose;
mod records;
mod scan;
mod sent;
mod split;

pub use choose::gx_bench_choose;
pub use records::{
    gx_bench_read, gx_bench_write_commit, gx_bench_write_note, gx_bench_write_write,
};
pub use scan::gx_bench_scan;
pub use sent::{SentBox, SentPage};
pub use split::gx_bench_split;
