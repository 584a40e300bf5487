//! Overlap searches over leaves.
ghost use Rattle.std.specs.Prelude.{◌≡◌, ◌≤◌, true, not, map, length, All, count_by};
ghost use Rattle.std.specs.Bool.{OnTrue};
ghost use Rattle.gx_class.specs.Probes.{corners, are_between};
ghost use Rattle.gx_page.specs.Format.{IsWellFormed};
ghost use Rattle.gx_node.specs.Hits.{passing_of};
ghost use Rattle.gx_node.specs.Reading.{is_leaf, leaf_of};
ghost use Rattle.gx_bench.specs.Sent.{key_of, page_of, InOrder};
ghost use Rattle.gx_bench.specs.Scans.{boxes, is_live_hit, hits_in_all, AreLeaves};

use crate::sent::{SentBox, SentPage, key_of, pages_of};
use gx_class::{Box2Class, BoxProbe, Probing};
use gx_machine::Query;
use gx_node::{BLOCK, Leaf, laws};
use gx_page::Page;
use std::alloc::Global;

/// Whether each page is a leaf of boxes.
fn are_leaves(pages: &[Page]) -> bool
    ensures { OnTrue result (AreLeaves pages.now) }
{
    for page in pages {
        if Leaf::<Box2Class>::read(page).is_err() {
            return false;
        }
    }
    true
}

/// How many pairs of a block of a leaf's slots are live and pass.
fn live_in_block(leaf: &Leaf<'_, Box2Class>, from: usize, probe: &BoxProbe) -> usize
    requires { from ≤ length leaf.now.pairs }
    ensures hits { result ≡ count_by (λ pair. not pair.marked)
        (passing_of (λ pair. are_between probe.now.low probe.now.high (corners pair.key)) leaf.now.pairs from) }
    ensures few { result ≤ 64 }
{
    let passing = leaf.passing(probe, from);
    let slots = passing.as_slice();
    let mut hits = 0;
    for slot in slots {
        hits += usize::from(!leaf.is_marked(usize::from(*slot)));
    }
    hits
}

/// How many of a leaf's pairs are live and pass.
fn live_hits(page: &Page, probe: &BoxProbe) -> usize
    requires { is_leaf boxes page.now ≡ true }
    ensures hits { result ≡ count_by (is_live_hit (λ key. are_between probe.now.low probe.now.high (corners key)))
        (leaf_of boxes page.now).pairs }
    ensures few { result ≤ 832 }
    ensures well_formed { IsWellFormed page.now }
{
    let count = page.count();
    let leaf = Leaf::<Box2Class>::of(page);
    let mut hits = 0;
    for block in 0..count.div_ceil(BLOCK) {
        hits += live_in_block(&leaf, block * BLOCK, probe);
    }
    hits
}

/// How many pairs of leaves are live and overlap a box.
fn hits_in_all(pages: &[Page], sent: &SentBox) -> usize
    requires few { length pages.now ≤ 65536 }
    requires leaves { AreLeaves pages.now }
    requires in_order { InOrder sent.now }
    ensures { result ≡ hits_in_all pages.now (key_of sent.now) }
{
    laws::leaves::<Box2Class>();
    let probe = Box2Class::probe_keys(&Query::Overlap(key_of(sent)));
    let mut hits = 0;
    for page in pages {
        hits += live_hits(page, &probe);
    }
    hits
}

/// For each of some boxes, how many pairs of leaves are live and overlap it.
fn count_all(pages: &[Page], queries: &[SentBox], counts: &mut [usize])
    requires few { length pages.now ≤ 65536 }
    requires leaves { AreLeaves pages.now }
    requires in_order { All InOrder queries.now }
    requires as_many { length counts.old ≡ length queries.now }
    ensures { counts.new ≡ map (λ q. hits_in_all pages.now (key_of q)) queries.now }
{
    for place in 0..queries.len() {
        counts[place] = hits_in_all(pages, &queries[place]);
    }
}

/// For each of some boxes, writes into `counts`, which has a place for each, how many live pairs of the leaves overlap
/// it. False if an image is no leaf of boxes, or memory is refused.
#[unsafe(no_mangle)]
pub extern "C" fn gx_bench_scan(
    alloc: Global,
    sent: &[SentPage],
    queries: &[SentBox],
    counts: &mut [usize],
) -> bool
    requires few { length sent.now ≤ 65536 }
    requires in_order { All InOrder queries.now }
    requires as_many { length counts.old ≡ length queries.now }
    ensures { OnTrue result (counts.new ≡ map (λ q. hits_in_all (map page_of sent.now) (key_of q)) queries.now) }
{
    let Some(pages) = pages_of(alloc, sent) else {
        return false;
    };
    if !are_leaves(&pages) {
        return false;
    }
    count_all(&pages, queries, counts);
    true
}
