//! The steps that add a pair to a leaf, and that mark one.
ghost use Rattle.std.specs.Prelude.{◌≡◌, ◌≢◌, ◌≤◌, ◌<◌, true, [], length, Err, OnOk, IfOk, IfErr, ◌∷◌};
ghost use Rattle.gx_machine.specs.declared.entry.Entry.{Entry};
ghost use Rattle.gx_node.specs.declared.items.TheConstants.{MAX_ENTRIES};
ghost use Rattle.gx_node.specs.Trees.{Used};
ghost use Rattle.gx_node.specs.Owner.{CountsFaults, KeepsSince, Prepares, Asks};
ghost use Rattle.gx_tree.specs.Calls.{ReadsPages, TellsAdd, TellsMark, WritesPage};
ghost use Rattle.gx_tree.specs.Seeking.{is_here};
ghost use Rattle.gx_node.specs.Store.{tree_of};
ghost use Rattle.gx_tree.specs.Wants.{wants};

use crate::bring::bring_page;
use crate::edits::{AppendPair, KeepSide, SetMark};
use crate::seek::{Sought, seek_step};
use crate::wanted::Wanted;
use gx_class::{KeyClass, Probing};
use gx_machine::Entry;
use gx_node::{Leaf, MAX_ENTRIES, PagesMut, StepFault};

/// Brings the leaf on a page, and returns how many pairs it has.
///
/// Refused with `Pages` if the page could not be brought, and with `Damaged` only if it isn't a leaf in use.
#[tactic(auto, using(gx_node::proofs::Listed::same_store))]
pub(crate) fn bring_leaf<K: KeyClass, P: PagesMut<K>>(
    pages: &mut P,
    page: u32,
) -> Result<usize, StepFault<P::Fault>>
    ensures held { OnOk result (P.held pages.new page) }
    ensures used { OnOk result (Used (tree_of (P.store pages.new)) page) }
    ensures leaf { OnOk result (((tree_of (P.store pages.new)).node page).level ≡ 0) }
    ensures childless { OnOk result (((tree_of (P.store pages.new)).node page).children ≡ []) }
    ensures count { IfOk result (λ count. count ≡ length ((tree_of (P.store pages.new)).node page).pairs) }
    ensures same { P.steady pages.old → P.store pages.new ≡ P.store pages.old }
    ensures reads { ReadsPages P.Pages (page ∷ []) pages.old pages.new result }
    ensures damaged { result ≡ Err StepFault.Damaged → Used (tree_of (P.store pages.new)) page
        → ((tree_of (P.store pages.new)).node page).level ≢ 0 }
{
    bring_page(pages, page)?;
    let page = pages.page(page);
    if page.level() == 0 {
        Ok(page.count())
    } else {
        Err(StepFault::Damaged)
    }
}

/// Prepares to change a held page. Refused if what that needs could not be had.
pub(crate) fn prepare_page<K: KeyClass, P: PagesMut<K>>(
    pages: &mut P,
    page: u32,
) -> Result<(), P::Fault>
    requires { P.held pages.old page }
    ensures same { P.store pages.new ≡ P.store pages.old }
    ensures held { P.held pages.new page }
    ensures changing { OnOk result (P.changing pages.new page) }
    ensures steady { P.steady pages.old → P.steady pages.new }
    ensures since { KeepsSince P.since pages.old pages.new }
    ensures asked { Asks P.asked (Prepares (page ∷ []) 0 ∷ []) pages.old pages.new }
    ensures why { IfErr result (P.why pages.old pages.new) }
    ensures told { CountsFaults P.fails (P.faults pages.old) (P.faults pages.new) result }
{
    pages.prepare(&[page], 0)
}

/// Puts a live pair after the last one of the leaf on a page, if a node has at most `most` entries, which is at most
/// `MAX_ENTRIES`.
///
/// Refused with `Pages` if the page could not be brought or prepared, and with `Damaged` only if it isn't a leaf in
/// use, or has no room. Nothing has changed then.
pub fn add_step<K: KeyClass, P: PagesMut<K>>(
    pages: &mut P,
    page: u32,
    entry: &Entry<K::Key>,
    most: usize,
) -> Result<(), StepFault<P::Fault>>
    requires most { most ≤ MAX_ENTRIES }
    ensures tells { TellsAdd most page entry.now result (P.steady pages.old) (P.store pages.old) (P.store pages.new) }
    ensures writes { WritesPage P.Pages (λ _. true) page pages.old pages.new result }
    ensures held { OnOk result (P.held pages.new page × P.changing pages.new page) }
{
    if bring_leaf(pages, page)? >= most {
        return Err(StepFault::Damaged);
    }
    prepare_page(pages, page)?;
    pages.change(page, AppendPair { entry: *entry });
    Ok(())
}

/// Sets or clears the mark of the wanted pair in the leaf on a page. A pair that was found in a leaf is still in that
/// leaf or further to the right; if it isn't in this leaf, the next leaf is returned, as by `seek_step`.
///
/// Refused with `Pages` if the page could not be brought or prepared, and with `Damaged` only if it isn't a leaf in
/// use. Nothing has changed then.
pub fn set_mark_step<K: Probing, P: PagesMut<K>>(
    pages: &mut P,
    wanted: &Wanted<K>,
    page: u32,
    marked: bool,
) -> Result<Sought, StepFault<P::Fault>>
    ensures tells { TellsMark (wants K.passes wanted.now.keys wanted.now.row) page marked result (P.steady pages.old)
        (P.store pages.old) (P.store pages.new) }
    ensures writes { WritesPage P.Pages is_here page pages.old pages.new result }
    ensures held { OnOk result (P.held pages.new page) }
    ensures changing { IfOk result (λ sought. is_here sought ≡ true → P.changing pages.new page) }
{
    match seek_step(pages, wanted, page)? {
        Sought::Here(slot, before) => {
            prepare_page(pages, page)?;
            pages.change(page, SetMark { slot, marked });
            Ok(Sought::Here(slot, before))
        }
        Sought::Right(next) => Ok(Sought::Right(next)),
    }
}
