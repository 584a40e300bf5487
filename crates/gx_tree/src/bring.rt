//! Brings a page for a step.
ghost use Rattle.std.specs.Prelude.{◌≡◌, [], ◌∷◌, Err, OnOk};
ghost use Rattle.gx_node.specs.Trees.{Used};
ghost use Rattle.gx_node.specs.Store.{Stays, tree_of};
ghost use Rattle.gx_tree.specs.Calls.{ReadsPages};

use gx_class::KeyClass;
use gx_node::{Pages, StepFault};

/// Brings one page, which a step names.
///
/// Refused with `Pages` if it could not be brought, and with `Damaged` only if it isn't in use.
pub(crate) fn bring_page<K: KeyClass, P: Pages<K>>(
    pages: &mut P,
    page: u32,
) -> Result<(), StepFault<P::Fault>>
    ensures held { OnOk result (P.held pages.new page × Used (tree_of (P.store pages.new)) page) }
    ensures stays { Stays (P.steady pages.old) (P.store pages.old) (P.store pages.new) }
    ensures reads { ReadsPages P.Pages (page ∷ []) pages.old pages.new result }
    ensures damaged { result ≡ Err StepFault.Damaged → ¬ Used (tree_of (P.store pages.new)) page }
{
    if page == 0 || pages.used() < page {
        return Err(StepFault::Damaged);
    }
    pages.bring(&[page])?;
    Ok(())
}
