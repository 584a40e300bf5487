//! Each page but the root is named by exactly one entry.
ghost use Rattle.std.specs.Prelude.{◌≡◌, ℕ, ◌+◌, ◌<◌, ◌≤◌, ◌⊎◌, ◌==◌, true, length, OnOk, IfErr};
ghost use Rattle.gx_node.specs.Reading.{format_of, is_node};
ghost use Rattle.gx_node.specs.Lists.{one_if};
ghost use Rattle.gx_node.specs.Trees.{times, child_pages};
ghost use Rattle.gx_node.specs.Store.{node_of};
ghost use Rattle.gx_legality.specs.Marks.{marked};

use crate::bounds::child_at;
use gx_class::KeyClass;
use gx_page::Page;

/// Marks each child of a node, by page.
///
/// Refused, with the page, if one is named that is marked already, or twice, or has no mark.
pub fn mark_children<K: KeyClass>(page: &Page, room: u32, marks: &mut [bool]) -> Result<(), u32>
    requires { is_node (format_of K.KeyClass) room page.now ≡ true }
    ensures marked { OnOk result ((q : ℕ) → q < length marks.old
        → marked marks.new q ≡ marked marks.old q + times q (child_pages (node_of (format_of K.KeyClass) page.now))) }
    ensures named { IfErr result (λ q. 0 < times q (child_pages (node_of (format_of K.KeyClass) page.now))) }
    ensures refused { IfErr result (λ q. (length marks.old ≤ q)
        ⊎ (2 ≤ marked marks.old q + times q (child_pages (node_of (format_of K.KeyClass) page.now)))) }
{
    for slot in 0..page.count() {
        let Some(entry) = child_at::<K>(page, room, slot) else {
            return Ok(());
        };
        mark(marks, entry.1)?;
    }
    Ok(())
}

/// Marks a page. Refused, with the page, if it is marked already or has no mark.
fn mark(marks: &mut [bool], page: u32) -> Result<(), u32>
    ensures marked { OnOk result (page < length marks.old
        × ((q : ℕ) → marked marks.new q ≡ marked marks.old q + one_if (page == q))) }
    ensures refused { IfErr result (λ q. (q ≡ page) × ((length marks.old ≤ q) ⊎ (1 ≤ marked marks.old q))) }
{
    let at = page as usize;
    if marks.len() <= at || marks[at] {
        return Err(page);
    }
    marks[at] = true;
    Ok(())
}

/// Tests that each page from 2 on is marked. Refused, with the page, if one isn't.
pub fn test_named(marks: &[bool]) -> Result<(), usize>
    ensures marked { OnOk result ((q : ℕ) → 2 ≤ q → q < length marks.now → marked marks.now q ≡ 1) }
    ensures refused { IfErr result (λ q. (2 ≤ q) × (q < length marks.now) × (marked marks.now q ≡ 0)) }
{
    for page in 2..marks.len() {
        if !marks[page] {
            return Err(page);
        }
    }
    Ok(())
}
