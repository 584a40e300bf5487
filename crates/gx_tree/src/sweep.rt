//! The sweep of a leaf: it is planned before it is made.
ghost use Rattle.std.specs.Prelude.{◌≡◌, ◌≤◌, ◌<◌, Bool, true, false, length, map, take, Some, slice_get, Err};
ghost use Rattle.std.specs.Prelude.{OnOk, OnErr, IfOk, IfErr, ◌∷◌, []};
ghost use Rattle.gx_machine.specs.declared.entry.Entry.{Entry};
ghost use Rattle.gx_node.specs.Edits.{entry_of};
ghost use Rattle.gx_node.specs.declared.items.TheConstants.{MAX_ENTRIES};
ghost use Rattle.gx_node.specs.Trees.{Pair, Used};
ghost use Rattle.gx_node.specs.Writes.{is_sweepable};
ghost use Rattle.gx_node.specs.Owner.{CountsFaults, KeepsSince, KeepsSinceBut, Asks};
ghost use Rattle.gx_node.specs.Store.{tree_of};
ghost use Rattle.gx_tree.specs.Calls.{ReadsPages, TellsSweep, WritesPage};
ghost use Rattle.gx_tree.specs.Sweeping.{Answers, FitsLeaf, PlansSweep, TakesOut, slots_from, slots_of, takes_none};
ghost use Rattle.gx_tree.specs.Sweeping.{to_take_out};

use crate::edits::KeepSide;
use crate::leaf_steps::{bring_leaf, prepare_page};
use gx_class::KeyClass;
use gx_machine::Entry;
use gx_node::{Leaf, MAX_ENTRIES, PagesMut, StepFault};
use std::marker::Model;

/// What a sweep removes from a leaf: a page, and the slots of the pairs that go. So the caller knows before the sweep
/// how much that will change.
#[derive(Drop)]
pub struct Sweep {
    page: u32,
    sides: [bool; MAX_ENTRIES],
    count: usize,
    slots: [u16; MAX_ENTRIES],
    gone: usize,
}

impl Model for Sweep {
    ghost use Rattle.std.specs.Prelude.{◌≡◌, ◌≤◌, take};
    ghost use Rattle.gx_node.specs.declared.items.TheConstants.{MAX_ENTRIES};
    ghost use Rattle.gx_tree.specs.Sweeping.{Planned, slots_from};

    ghost Value = { Planned };

    ghost view = { λ s. record { page = s.page; sides = take s.count s.sides } };

    ghost invariant = { λ s. (s.count ≤ MAX_ENTRIES) × (s.gone ≤ MAX_ENTRIES)
        × (take s.gone s.slots ≡ slots_from 0 (take s.count s.sides)) };
}

impl Sweep {
    /// A sweep of a leaf by a side for each of its pairs, `true` for those that go.
    fn new(page: u32, sides: [bool; MAX_ENTRIES], count: usize) -> Sweep
        requires { count ≤ MAX_ENTRIES }
        ensures { result ≡ record { page = page; sides = take count sides } }
    {
        let mut slots = [0; MAX_ENTRIES];
        let gone = list_slots(&sides[..count], &mut slots);
        Sweep {
            page,
            sides,
            count,
            slots,
            gone,
        }
    }

    /// The leaf's page.
    pub fn page(&self) -> u32
        ensures { result ≡ self.now.page }
    {
        self.page
    }

    /// The slots of the pairs that go, rising: `MAX_ENTRIES` at most.
    pub fn slots(&self) -> &[u16]
        ensures listed { result.now ≡ slots_of self.now }
        ensures few { length result.now ≤ MAX_ENTRIES }
    {
        &self.slots[..self.gone]
    }

    /// Whether no pair goes.
    pub fn is_empty(&self) -> bool
        ensures { result ≡ takes_none self.now }
    {
        self.slots().is_empty()
    }

    /// The side of each pair, `true` for those that go.
    fn sides(&self) -> &[bool]
        ensures { result.now ≡ self.now.sides }
    {
        &self.sides[..self.count]
    }
}

/// Writes the slots whose side is `true` over the first of `slots`, rising, and returns how many they are.
fn list_slots(sides: &[bool], slots: &mut [u16]) -> usize
    requires few { length sides.now ≤ MAX_ENTRIES }
    requires space { MAX_ENTRIES ≤ length slots.old }
    ensures few { result ≤ length sides.now }
    ensures listed { take result slots.new ≡ slots_from 0 sides.now }
{
    let mut gone = 0;
    for slot in 0..sides.len() {
        if sides[slot] {
            slots[gone] = slot as u16;
            gone += 1;
        }
    }
    gone
}

/// Whether a slot's pair is marked and no session claims it.
fn is_unclaimed<K: KeyClass, F: Fn(Entry<K::Key>) -> bool>(
    leaf: &Leaf<K>,
    slot: usize,
    claimed: &F,
) -> bool
    requires slot { slot < length leaf.now.pairs }
    requires claimed { F.IsAlwaysCallable claimed.now }
    ensures { (test : Entry K.Key → Bool)
        → ((entry : Entry K.Key) (answer : Bool) → F.post claimed.now entry answer → answer ≡ test entry)
        → (x : Pair K.Key) → slice_get leaf.now.pairs slot ≡ Some x → result ≡ is_sweepable (λ x. test (entry_of x)) x }
{
    let (entry, marked) = leaf.entry(slot);
    marked && !claimed(entry)
}

/// Returns for each pair of a leaf whether a sweep removes it: whether it is marked and no session claims it.
fn choose_sides<K: KeyClass, F: Fn(Entry<K::Key>) -> bool>(
    leaf: &Leaf<K>,
    claimed: &F,
    sides: &mut [bool],
)
    requires sides { length sides.old ≡ length leaf.now.pairs }
    requires claimed { F.IsAlwaysCallable claimed.now }
    ensures { (test : Entry K.Key → Bool)
        → ((entry : Entry K.Key) (answer : Bool) → F.post claimed.now entry answer → answer ≡ test entry)
        → sides.new ≡ map (is_sweepable (λ x. test (entry_of x))) leaf.now.pairs }
{
    for slot in 0..leaf.len() {
        sides[slot] = is_unclaimed(leaf, slot, claimed);
    }
}

/// Brings the leaf on a page, and returns which of its pairs a sweep removes: those that are marked and that no session
/// claims. Nothing changes.
///
/// Refused with `Pages` if the page could not be brought, and with `Damaged` only if it isn't a leaf in use, or has
/// more than `MAX_ENTRIES` pairs.
pub fn plan_sweep<K: KeyClass, P: PagesMut<K>, F: Fn(Entry<K::Key>) -> bool>(
    pages: &mut P,
    page: u32,
    claimed: F,
) -> Result<Sweep, StepFault<P::Fault>>
    requires claimed { F.IsAlwaysCallable claimed }
    ensures same { P.steady pages.old → P.store pages.new ≡ P.store pages.old }
    ensures reads { ReadsPages P.Pages (page ∷ []) pages.old pages.new result }
    ensures held { OnOk result (P.held pages.new page × Used (tree_of (P.store pages.new)) page) }
    ensures page { IfOk result (λ sweep. sweep.page ≡ page) }
    ensures fits { IfOk result (λ sweep. FitsLeaf sweep ((tree_of (P.store pages.new)).node page)) }
    ensures plans { (test : Entry K.Key → Bool) → Answers F.post claimed test
        → IfOk result (PlansSweep test ((tree_of (P.store pages.new)).node page)) }
    ensures damaged { result ≡ Err StepFault.Damaged → Used (tree_of (P.store pages.new)) page
        → ((tree_of (P.store pages.new)).node page).level ≡ 0
        → MAX_ENTRIES < length ((tree_of (P.store pages.new)).node page).pairs }
{
    let count = bring_leaf(pages, page)?;
    if count > MAX_ENTRIES {
        return Err(StepFault::Damaged);
    }
    let mut sides = [false; MAX_ENTRIES];
    choose_sides(
        &Leaf::<K>::of(pages.page(page)),
        &claimed,
        &mut sides[..count],
    );
    Ok(Sweep::new(page, sides, count))
}

/// Removes the pairs of a sweep from its leaf, which is held and hasn't changed since the plan. If the sweep is empty
/// nothing changes, and nothing is prepared.
///
/// Refused if what the change needs could not be had. Nothing has changed then.
pub fn make_sweep<K: KeyClass, P: PagesMut<K>>(pages: &mut P, sweep: &Sweep) -> Result<(), P::Fault>
    requires held { P.held pages.old sweep.now.page × Used (tree_of (P.store pages.old)) sweep.now.page }
    requires fits { FitsLeaf sweep.now ((tree_of (P.store pages.old)).node sweep.now.page) }
    ensures steady { P.steady pages.old → P.steady pages.new }
    ensures since { KeepsSinceBut P.since sweep.now.page pages.old pages.new }
    ensures kept { OnErr result (KeepsSince P.since pages.old pages.new) }
    ensures spared { takes_none sweep.now ≡ true → KeepsSince P.since pages.old pages.new }
    ensures asked { Asks P.asked (to_take_out (takes_none sweep.now) sweep.now.page) pages.old pages.new }
    ensures why { IfErr result (P.why pages.old pages.new) }
    ensures told { CountsFaults P.fails (P.faults pages.old) (P.faults pages.new) result }
    ensures held { P.held pages.new sweep.now.page }
    ensures changing { OnOk result (takes_none sweep.now ≡ false → P.changing pages.new sweep.now.page) }
    ensures takes { OnOk result (TakesOut sweep.now (P.store pages.old) (P.store pages.new)) }
    ensures refused { OnErr result (P.store pages.new ≡ P.store pages.old) }
{
    if sweep.is_empty() {
        return Ok(());
    }
    prepare_page(pages, sweep.page())?;
    pages.change(
        sweep.page(),
        KeepSide {
            sides: sweep.sides(),
        },
    );
    Ok(())
}

/// Removes the marked pairs that no session claims from the leaf on a page: pairs that were deleted by their mark are
/// removed later (Kornacker, Mohan, Hellerstein 1997). Returns whether there were any; if not, the page isn't changed.
///
/// Refused with `Pages` if the page could not be brought or prepared, and with `Damaged` only if it isn't a leaf in
/// use, or has more than `MAX_ENTRIES` pairs. Nothing has changed then.
pub fn sweep_step<K: KeyClass, P: PagesMut<K>, F: Fn(Entry<K::Key>) -> bool>(
    pages: &mut P,
    page: u32,
    claimed: F,
) -> Result<bool, StepFault<P::Fault>>
    requires claimed { F.IsAlwaysCallable claimed }
    ensures tells { TellsSweep (Answers F.post claimed) page result (P.steady pages.old) (P.store pages.old)
        (P.store pages.new) }
    ensures writes { WritesPage P.Pages (λ any. any) page pages.old pages.new result }
    ensures held { OnOk result (P.held pages.new page) }
    ensures changing { IfOk result (λ any. any ≡ true → P.changing pages.new page) }
{
    let sweep = plan_sweep(pages, page, claimed)?;
    if sweep.is_empty() {
        return Ok(false);
    }
    make_sweep(pages, &sweep)?;
    Ok(true)
}
