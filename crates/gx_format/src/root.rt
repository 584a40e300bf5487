//! The root of a fresh tree.
ghost use Rattle.std.specs.Prelude.{◌≡◌, IfOk, IfErr, OnOk};
ghost use Rattle.gx_page.specs.Format.{IsWellFormed};
ghost use Rattle.gx_format.specs.Fresh.{fresh_root};

use gx_class::KeyClass;
use gx_geom::Refusal;
use gx_node::{inner_edits, laws};
use gx_page::Page;
use std::alloc::Global;

/// Page 1 of a fresh tree: the root, with page 2 below the class's start key. Refused with `Memory` if there is none
/// for the page.
pub(crate) fn fresh_root<K: KeyClass>(alloc: Global) -> Result<Page, Refusal>
    ensures page { IfOk result (λ page. page ≡ fresh_root K.spelling K.start_key) }
    ensures well_formed { OnOk result (IsWellFormed (fresh_root K.spelling K.start_key)) }
    ensures refusal { IfErr result (λ why. why ≡ Refusal.Memory) }
{
    let Ok(mut page) = Page::fresh(alloc, 1, 1) else {
        return Err(Refusal::Memory);
    };
    laws::blanks::<K>();
    laws::inners::<K>();
    inner_edits::append::<K>(&mut page, K::start(), 2, 2);
    // A page that lends its image is well-formed.
    page.image();
    Ok(page)
}
