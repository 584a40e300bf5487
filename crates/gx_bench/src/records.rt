//! Records of the log written and read.
ghost use Rattle.std.specs.Prelude.{◌≡◌, ◌≤◌, ◌+◌, ◌++◌, length, drop};
ghost use Rattle.gx_record.specs.Format.{IsInRange, IsPage, spelling};
ghost use Rattle.gx_record.specs.Rec.{Commit, Note, Write};
ghost use Rattle.gx_record.specs.Seen.{is_marked as marked, rec_of};
ghost use Rattle.gx_record.specs.Writing.{size_of};
ghost use Rattle.gx_bench.specs.Whole.{ReadsWhole};

use gx_record::{Mark, Record};

fn mark_of(is_marked: bool) -> Mark
    ensures { marked result ≡ is_marked }
{
    if is_marked { Mark::Marked } else { Mark::Live }
}

/// Writes a record at the front. There is room for it.
#[tactic(auto, using(gx_record::proofs::Writes::spelling_size))]
fn written(logged: &Record<'_>, out: &mut [u8]) -> usize
    requires in_range { IsInRange (rec_of logged.now) }
    requires room { size_of (rec_of logged.now) ≤ length out.old }
    ensures written { out.new ≡ spelling (rec_of logged.now) ++ drop result out.old }
    ensures size { result ≡ length (spelling (rec_of logged.now)) }
{
    logged.encode_into(out).unwrap_or(0)
}

/// Writes a commit's record, and returns how many bytes it has.
#[unsafe(no_mangle)]
pub extern "C" fn gx_bench_write_commit(tx: u64, n: u64, out: &mut [u8]) -> usize
    requires { 17 ≤ length out.old }
    ensures { out.new ≡ spelling (Commit tx n) ++ drop result out.old }
{
    written(&Record::Commit { tx, n }, out)
}

/// Writes a note's record, and returns how many bytes it has.
#[unsafe(no_mangle)]
pub extern "C" fn gx_bench_write_note(
    tx: u64,
    row: u64,
    key: &[u8],
    before: bool,
    leaf: u32,
    out: &mut [u8],
) -> usize
    requires { 22 + length key.now ≤ length out.old }
    ensures { out.new ≡ spelling (Note tx row key.now before leaf) ++ drop result out.old }
{
    let before = mark_of(before);
    let note = Record::Note {
        tx,
        row,
        key,
        before,
        leaf,
    };
    written(&note, out)
}

/// Writes the record of a write to a leaf with that image, and returns how many bytes it has.
#[unsafe(no_mangle)]
pub extern "C" fn gx_bench_write_write(
    tx: u64,
    row: u64,
    key: &[u8],
    before: bool,
    after: bool,
    leaf: u32,
    image: &[u8],
    out: &mut [u8],
) -> usize
    requires leaf { IsPage (leaf, image.now) }
    requires room { 4119 + length key.now ≤ length out.old }
    ensures { out.new ≡ spelling (Write tx row key.now before after leaf image.now) ++ drop result out.old }
{
    let before = mark_of(before);
    let after = mark_of(after);
    let write = Record::Write {
        tx,
        row,
        key,
        before,
        after,
        leaf,
        image,
    };
    written(&write, out)
}

/// Reads whole records from the front until there is none, and returns how many bytes they have.
#[unsafe(no_mangle)]
pub extern "C" fn gx_bench_read(bytes: &[u8], key: usize) -> usize
    ensures { ReadsWhole key bytes.now result }
{
    let mut rest = bytes;
    while let Some((_, size)) = Record::decode(rest, key) {
        rest = rest.split_at(size).1;
    }
    bytes.len() - rest.len()
}
