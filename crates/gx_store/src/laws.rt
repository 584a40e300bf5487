//! Laws of the store. Each function is its contract alone.
ghost use Rattle.std.specs.Prelude.{◌≡◌, ◌≤◌, ◌+◌, ◌*◌, ℕ, true};
ghost use Rattle.gx_disk.specs.declared.layout.TheConstants.{MAX_PAGES, PAGES_AT, PAGE_SECTORS};
ghost use Rattle.gx_node.specs.Reading.{format_of, is_node};
ghost use Rattle.gx_pool.specs.State.{State, IsEmpty};
ghost use Rattle.gx_store.specs.Since.{IsSince};
ghost use Rattle.gx_store.specs.State.{Shelf, IsInOrder, IsSteady};
ghost use Rattle.gx_store.specs.Standing.{StandsAsShown};

use gx_class::KeyClass;
use gx_disk::SectorDisk;

/// Between a moment and itself no page changes, and two spans of time are one: so a caller of several steps of the tree
/// knows what they leave in all.
pub fn going_on<D: SectorDisk, K: KeyClass>()
    ensures begins { (s : Shelf D) (page : ℕ)
        → IsSince (is_node (format_of K.KeyClass)) (D.state s.disk) (D.state s.disk) s s page }
    ensures joins { (s t u : Shelf D) (page : ℕ)
        → IsSince (is_node (format_of K.KeyClass)) (D.state s.disk) (D.state t.disk) s t page
        → IsSince (is_node (format_of K.KeyClass)) (D.state t.disk) (D.state u.disk) t u page
        → IsSince (is_node (format_of K.KeyClass)) (D.state s.disk) (D.state u.disk) s u page }
{}

/// A store starts with empty frames over a device that has its pages. On an honest one it is steady then.
pub fn a_store_starts<D: SectorDisk, K: KeyClass>()
    ensures order { (disk : D) (frames : State) (count used pages : ℕ) → IsEmpty count frames → pages ≤ MAX_PAGES
        → PAGES_AT + PAGE_SECTORS * pages ≤ (D.state disk).sectors → used ≤ pages
        → IsInOrder (is_node (format_of K.KeyClass) pages) (D.state disk).sectors frames used pages }
    ensures steady { (disk : D) (frames : State) (count : ℕ) → IsEmpty count frames → (D.state disk).honest ≡ true
        → IsSteady (D.state disk) frames }
{}

/// If each clean page is what the device has, a page is what the pool shows of it: its last change, or what the device
/// has.
pub fn steady_pages<D: SectorDisk>()
    ensures { (disk : D) → StandsAsShown (D.state disk) }
{}
