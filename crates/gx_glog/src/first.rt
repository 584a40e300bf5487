//! The first body of a new log.
ghost use Rattle.std.specs.Prelude.{◌≡◌};
ghost use Rattle.gx_glog.specs.First.{first_body_bytes};

use crate::extent::BODY_SIZE;
use crate::parameters::write_at;

// The record's size, and the record: counters with no commit, no change, two pages in use, and transaction 1 to come.
const FIRST: [u8; 33] = [
    0, 0, 0, 29, 5, 0, 0, 0, 0, 0, 0, 0, 0, 0, 0, 0, 0, 0, 0, 0, 0, 0, 0, 0, 2, 0, 0, 0, 0, 0, 0,
    0, 1,
];

/// Body 0 of a new log: the counters of a new tree, and zeros.
pub fn first_body() -> [u8; BODY_SIZE]
    ensures { result ≡ first_body_bytes }
{
    let mut body = [0; BODY_SIZE];
    write_at(&mut body, 0, &FIRST);
    body
}
