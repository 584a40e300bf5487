//! Counts the entries of an index while no session has a transaction: the pairs of its leaves that aren't marked.
ghost use Rattle.std.specs.Prelude.{◌≡◌, ◌≤◌, not, OnOk, IfOk, Ok};
ghost use Rattle.gx_node.specs.Reading.{format_of};
ghost use Rattle.gx_node.specs.Store.{node_of};
ghost use Rattle.gx_restart.specs.Bringing.{Brings, Helps, IsBrought};
ghost use Rattle.gx_restart.specs.Counted.{HasLive, HasLiveOn};
ghost use Rattle.gx_restart.specs.Pages.{IsNode};
ghost use Rattle.gx_restart.specs.Sizes.{live_on};
ghost use Rattle.gx_node.specs.Lists.{one_if};

use crate::text::Stop;
use crate::text::bring::bring;
use gx_class::{KeyClass, ReadKeys};
use gx_disk::SectorDisk;
use gx_engine::Engine;
use gx_node::Leaf;
use gx_page::Page;
use gx_storage::laws::a_volume_shows_the_logs_tree;

// One for a pair that isn't marked.
fn count_pair(marked: bool) -> usize
    ensures live { result ≡ one_if (not marked) }
    ensures few { result ≤ 1 }
{
    if marked { 0 } else { 1 }
}

// How many pairs of a leaf aren't marked.
fn count_pairs<K: KeyClass>(leaf: &Leaf<K>) -> usize
    ensures { result ≡ live_on leaf.now }
{
    let mut live = 0;
    for slot in 0..leaf.len() {
        live += count_pair(leaf.is_marked(slot));
    }
    live
}

// How many pairs of a page aren't marked: on an inner node there are none.
fn count_page<K: KeyClass>(page: &Page) -> usize
    requires { IsNode (format_of K.KeyClass) page.now }
    ensures live { result ≡ live_on (node_of (format_of K.KeyClass) page.now) }
    ensures few { result ≤ 812 }
{
    let _count = page.count();
    if page.level() == 0 {
        count_pairs::<K>(&Leaf::of(page))
    } else {
        0
    }
}

// Brings a page, and counts its pairs that aren't marked.
fn count_on<D: SectorDisk, K: ReadKeys>(engine: &mut Engine<D, K>, page: u32) -> Result<usize, Stop>
    requires from { 1 ≤ page }
    requires to { page ≤ engine.old.volume.shelf.used }
    ensures brought { OnOk result (IsBrought (Brings K.Key.Shape K.ReadKeys D.state page)
        (Helps K.Key.Shape K.ReadKeys D.state) engine.old (Ok tt) engine.new) }
    ensures live { IfOk result (HasLiveOn K.Key.Shape K.ReadKeys D.state engine.old page) }
    ensures few { IfOk result (λ live. live ≤ 812) }
{
    a_volume_shows_the_logs_tree::<D, K>();
    match bring(engine, page) {
        Ok(()) => Ok(count_page::<K>(engine.held_page(page))),
        Err(stop) => Err(stop),
    }
}

/// Counts the pairs of an index's tree that aren't marked. Pages are brought one after another, with the events that
/// free frames for them. It changes no node, and takes no memory.
///
/// Stopped if an event is refused, or a page isn't brought within `EVENTS` turns.
pub(crate) fn count_entries<D: SectorDisk, K: ReadKeys>(
    engine: &mut Engine<D, K>,
) -> Result<u64, Stop>
    ensures { IfOk result (HasLive K.Key.Shape K.ReadKeys D.state engine.old) }
{
    let used = engine.used();
    let mut entries = 0;
    for last in 0..used {
        match count_on(engine, last + 1) {
            Ok(live) => entries += live as u64,
            Err(stop) => return Err(stop),
        }
    }
    Ok(entries)
}
