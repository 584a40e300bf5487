//! The bytes of a log's bodies, read record by record.
ghost use Rattle.std.specs.Prelude.{◌≡◌, ◌+◌, ◌*◌, ◌<◌, ◌≤◌, length, drop, IfOk, OnOk, IfErr};
ghost use Rattle.gx_record.specs.declared.sizes.TheConstants.{END_RECORD};
ghost use Rattle.gx_glog.specs.declared.extent.TheConstants.{BODY_ROOM, PLACES};
ghost use Rattle.gx_found_log.specs.declared.given.TheConstants.{LEAST_SHARE, MOST_GIVEN, MOST_IN_BODY};
ghost use Rattle.gx_recovery.specs.Known.{Limits};
ghost use Rattle.gx_recovery.specs.Broken.{refused};
ghost use Rattle.gx_found_log.specs.Parts.{part_behind};
ghost use Rattle.gx_found_log.specs.Told.{BytesTold, FirstTold};
ghost use Rattle.gx_found_log.specs.Broken.{BytesBroken, BrokenOn};

use crate::gathered::gather;
use crate::{Gathered, Misfit, Part, Readable};
use gx_record::Record;
use gx_recovery::LogRule;

/// Reads the record at the front of the bytes and gathers it. Returns how many bytes it has.
fn on_first<M: Readable>(
    part: Part,
    gathered: &mut Gathered<M::Entry>,
    bytes: &[u8],
) -> Result<usize, LogRule>
where
    M::Entry: Copy + Ord,
    requires some { 0 < length bytes.now }
    requires room { END_RECORD * length gathered.old.analysis.closed + length bytes.now ≤ PLACES * BODY_ROOM }
    requires places { LEAST_SHARE * (length gathered.old.given + MOST_IN_BODY) + length bytes.now
        ≤ LEAST_SHARE * MOST_GIVEN + BODY_ROOM }
    ensures size { IfOk result (λ n. 0 < n) }
    ensures within { IfOk result (λ n. n ≤ length bytes.now) }
    ensures closed { IfOk result (λ n. END_RECORD * length gathered.new.analysis.closed
        ≤ END_RECORD * length gathered.old.analysis.closed + n) }
    ensures given { IfOk result (λ n. LEAST_SHARE * length gathered.new.given
        ≤ LEAST_SHARE * length gathered.old.given + n) }
    ensures told { (d : Limits) → (M.known d).cmp ≡ M.Entry.Ord.cmp
        → FirstTold part (M.known d) M.reading bytes.now gathered.old (refused result) gathered.new }
    ensures broken { (d : Limits) → (M.known d).cmp ≡ M.Entry.Ord.cmp
        → IfErr result (λ rule. BytesBroken part (M.known d) M.reading bytes.now gathered.old 0 rule) }
    ensures goes { (d : Limits) → (M.known d).cmp ≡ M.Entry.Ord.cmp
        → IfOk result (λ n. BrokenOn part (part_behind part) (M.known d) M.reading bytes.now
        (drop n bytes.now) n gathered.old gathered.new) }
{
    match Record::decode(bytes, M::key_size()) {
        Some(found) => match gather::<M>(part, gathered, &found.0) {
            Ok(()) => Ok(found.1),
            Err(rule) => Err(rule),
        },
        None => Err(LogRule::Spelling),
    }
}

/// Reads the bytes of a body from its start, record by record, and gathers them: of a log's first body at `Start`, of
/// others at `Later`. Refused if the bytes aren't whole records, if one may not come, and if a first body has no
/// counters, with the place and the rule; what is gathered is then of no use.
///
/// An extent has 1,048,448 bytes of records at most: what was closed before, at nine bytes each, and these bytes are no
/// more. A record that closes a transaction has nine bytes at least, and no other closes one. An image has its share of
/// a body's bytes, so that a body gives seven at most.
pub fn on_body<M: Readable>(
    part: Part,
    gathered: &mut Gathered<M::Entry>,
    bytes: &[u8],
) -> Result<(), Misfit>
where
    M::Entry: Copy + Ord,
    requires room { END_RECORD * length gathered.old.analysis.closed + length bytes.now ≤ PLACES * BODY_ROOM }
    requires few { length bytes.now ≤ BODY_ROOM }
    requires places { length gathered.old.given + MOST_IN_BODY ≤ MOST_GIVEN }
    ensures closed { OnOk result (END_RECORD * length gathered.new.analysis.closed
        ≤ END_RECORD * length gathered.old.analysis.closed + length bytes.now) }
    ensures given { OnOk result (length gathered.new.given ≤ length gathered.old.given + MOST_IN_BODY) }
    ensures told { (d : Limits) → (M.known d).cmp ≡ M.Entry.Ord.cmp
        → BytesTold part (M.known d) M.reading bytes.now gathered.old (refused result) gathered.new }
    ensures broken { (d : Limits) → (M.known d).cmp ≡ M.Entry.Ord.cmp
        → IfErr result (λ misfit. BytesBroken part (M.known d) M.reading bytes.now gathered.old misfit.at misfit.rule) }
{
    let mut rest = bytes;
    let mut now_at = part;
    let mut at: usize = 0;
    while 0 < rest.len() {
        match on_first::<M>(now_at, gathered, rest) {
            Ok(size) => {
                rest = rest.split_at(size).1;
                now_at = now_at.behind();
                at += size;
            }
            Err(rule) => return Err(Misfit { at, rule }),
        }
    }
    now_at.end_body(at)
}
