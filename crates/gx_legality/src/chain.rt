//! The leaves are on the chain of rightlinks, each once.
ghost use Rattle.std.specs.Prelude.{◌≡◌, ℕ, ◌+◌, ◌^◌, ◌<◌, ◌≤◌, ◌⊎◌, ◌==◌, List, None};
ghost use Rattle.std.specs.Prelude.{Some, OnOk, IfErr, MatchOption, length, slice_index_or};
ghost use Rattle.gx_node.specs.Legal.{Linked};
ghost use Rattle.gx_node.specs.Lists.{one_if};
ghost use Rattle.gx_node.specs.Trees.{Tree, Rules, Used, leaves, times};
ghost use Rattle.gx_legality.specs.Breaks.{Breaks, Leads};
ghost use Rattle.gx_legality.specs.Marks.{AreLinks, marked};

use crate::fault::Rule;
use gx_class::KeyClass;

/// Passes a page of the chain: marks it, and says its rightlink. `None` if it isn't a leaf, or was passed before.
fn pass(links: &[Option<u32>], passed: &mut [bool], page: u32) -> Option<u32>
    requires { length passed.old ≡ length links.now }
    ensures { MatchOption result ((slice_index_or links.now page None ≡ None) ⊎ (1 ≤ marked passed.old page))
        (λ right. (slice_index_or links.now page None ≡ Some right)
        × ((q : ℕ) → marked passed.new q ≡ marked passed.old q + one_if (page == q))) }
{
    let at = page as usize;
    if links.len() <= at || passed[at] {
        return None;
    }
    let right = links[at]?;
    passed[at] = true;
    Some(right)
}

/// Follows the rightlinks from page 2 to their end, and marks each page.
///
/// Refused, with the page, if they lead to a page that isn't a leaf or was marked before.
fn walk_chain<K: KeyClass>(links: &[Option<u32>], passed: &mut [bool]) -> Result<(), u32>
    requires as_many { length passed.old ≡ length links.now }
    requires none { (q : ℕ) → marked passed.old q ≡ 0 }
    ensures walked { (t : Tree K.Key) → AreLinks t links.now
        → OnOk result (Linked t 2 (leaves t) × ((q : ℕ) → times q (leaves t) ≡ marked passed.new q)) }
    ensures refused { (t : Tree K.Key) → AreLinks t links.now
        → IfErr result (λ p. (0 < p) × (pages : List ℕ) × Leads t 2 pages p
        × ((Used t p → (t.node p).level ≡ 0 → ⊥) ⊎ (0 < times p pages))) }
{
    let mut page = 2;
    for _step in 1..links.len() {
        if page == 0 {
            return Ok(());
        }
        let Some(right) = pass(links, passed, page) else {
            return Err(page);
        };
        page = right;
    }
    if page == 0 { Ok(()) } else { Err(page) }
}

/// Tests that each leaf is marked. Refused, with the page, if one isn't.
fn test_passed(links: &[Option<u32>], passed: &[bool]) -> Result<(), u32>
    requires few { length links.now ≤ 2 ^ 32 }
    requires as_many { length passed.now ≡ length links.now }
    ensures passed { OnOk result ((q right : ℕ) → slice_index_or links.now q None ≡ Some right
        → 1 ≤ marked passed.now q) }
    ensures refused { IfErr result (λ q. (marked passed.now q ≡ 0)
        × ((right : ℕ) × (slice_index_or links.now q None ≡ Some right))) }
{
    for page in 0..links.len() {
        if links[page].is_some() && !passed[page] {
            return Err(page as u32);
        }
    }
    Ok(())
}

/// Tests that the rightlinks from page 2 lead over all leaves, over each once, and over no other page, and end. `links`
/// has the rightlink of each leaf by page, and `None` for other pages and for page 0;
/// `passed` has a mark for each, none of them set.
///
/// Refused, with the page, by `Chain` or `OffTheChain`.
pub fn test_chain<K: KeyClass>(
    links: &[Option<u32>],
    passed: &mut [bool],
) -> Result<(), (u32, Rule)>
    requires few { length links.now ≤ 2 ^ 32 }
    requires as_many { length passed.old ≡ length links.now }
    requires none { (q : ℕ) → marked passed.old q ≡ 0 }
    ensures chain { (t : Tree K.Key) → AreLinks t links.now → OnOk result (Linked t 2 (leaves t)) }
    ensures once { (t : Tree K.Key) → AreLinks t links.now
        → OnOk result ((q : ℕ) → Used t q → (t.node q).level ≡ 0 → times q (leaves t) ≡ 1) }
    ensures breaks { (r : Rules K.Key) (t : Tree K.Key) → AreLinks t links.now
        → IfErr result (λ why. Breaks r t why.0 why.1) }
{
    if let Err(page) = walk_chain::<K>(links, passed) {
        return Err((page, Rule::Chain));
    }
    match test_passed(links, passed) {
        Ok(()) => Ok(()),
        Err(page) => Err((page, Rule::OffTheChain)),
    }
}
