//! Laws of the pool. Each function is its contract alone.
ghost use Rattle.gx_pool.specs.Gated.{ImagesAgree};
ghost use Rattle.gx_pool.specs.Laws.{ChangeIsOfItsPage, ChangeIsOfNoOther, BringingKeepsBacked, BringingShowsTheSame};
ghost use Rattle.gx_pool.specs.Laws.{BringingKeepsPassing, CreatingKeepsBacked, CreatingShowsTheSame};
ghost use Rattle.gx_pool.specs.Laws.{CreatingKeepsPassing, CreatingShowsItsPage, ChangingKeepsBacked};
ghost use Rattle.gx_pool.specs.Laws.{ChangingShowsItsPage, ChangingShowsTheSame, ChangingKeepsPassing};
ghost use Rattle.gx_pool.specs.Laws.{ChangingKeepsSound, SomeAreClean, NoneAreClean, CleanAndDirtyAreApart};
ghost use Rattle.gx_pool.specs.Laws.{AllButHeldAreCounted, NoneDirtyIsZero, ZeroIsNoneDirty, ChangeOfACleanPageRaises};
ghost use Rattle.gx_pool.specs.Laws.{ChangeOfADirtyPageLeaves, ChangeKeepsClean, ChangeTakesAClean};
ghost use Rattle.gx_pool.specs.Elsewhere.{RestLeavesPages, ElsewhereReadsTheSame, ElsewhereKeepsBacked};
ghost use Rattle.gx_pool.specs.Elsewhere.{ElsewhereShowsTheSame, ElsewhereKeepsSettled, ElsewhereKeepsReadable};
ghost use Rattle.gx_pool.specs.Readable.{OneIsNotDamaged, SomeAreNotDamaged, BringingKeepsReadable};
ghost use Rattle.gx_pool.specs.Readable.{CreatingKeepsReadable, ChangingKeepsReadable};

use gx_disk::SectorDisk;

/// A change is of its page and of no other, with the later of its batch and the stamp that was there.
pub fn change()
    ensures of_its_page { ChangeIsOfItsPage }
    ensures of_no_other { ChangeIsOfNoOther }
{}

/// If each clean page is what an honest device has, this still holds after pages were brought, and every page is shown
/// as before: its last change, or what the device has. If each kept page passes the test, each does then.
pub fn bringing()
    ensures backed { BringingKeepsBacked }
    ensures shown { BringingShowsTheSame }
    ensures passing { BringingKeepsPassing }
{}

/// If each clean page is what an honest device has, this still holds after a page was made, blank or as a copy, and
/// every other page is shown as before. If each kept page passes the test, each does then, provided that the new page
/// passes it.
pub fn creating()
    ensures backed { CreatingKeepsBacked }
    ensures shown { CreatingShowsTheSame }
    ensures its_page { CreatingShowsItsPage }
    ensures passing { CreatingKeepsPassing }
{}

/// The same holds of a change through a loan: its page is shown with the last contents, and every other page as before.
/// Frames and the table still name each other, which is the premise of these laws.
pub fn changing()
    ensures backed { ChangingKeepsBacked }
    ensures its_page { ChangingShowsItsPage }
    ensures shown { ChangingShowsTheSame }
    ensures passing { ChangingKeepsPassing }
    ensures sound { ChangingKeepsSound }
{}

/// If what an honest device has of each page in use that isn't kept passes the test, this still holds after pages were
/// brought, made or changed, whichever are evicted meanwhile; `Pool::write_page` keeps it too. Then no page in use is
/// refused as damaged when it is brought.
pub fn readable<D: SectorDisk>()
    ensures one { (disk after : D) → OneIsNotDamaged (D.state disk) (D.state after) }
    ensures several { (disk after : D) → SomeAreNotDamaged (D.state disk) (D.state after) }
    ensures bringing { BringingKeepsReadable }
    ensures creating { CreatingKeepsReadable }
    ensures changing { ChangingKeepsReadable }
{}

/// A call that touches sectors ahead of page 1 alone, as a step of a log or of its turn does, or none, as a read and a
/// sync, leaves each page as the device has it: what is backed, shown, settled and readable.
pub fn calls_elsewhere<D: SectorDisk>()
    ensures rest { (disk after : D) → RestLeavesPages (D.state disk) (D.state after) }
    ensures bytes { (disk after : D) → ElsewhereReadsTheSame (D.state disk) (D.state after) }
    ensures backed { (disk after : D) → ElsewhereKeepsBacked (D.state disk) (D.state after) }
    ensures shown { (disk after : D) → ElsewhereShowsTheSame (D.state disk) (D.state after) }
    ensures settled { (disk after : D) → ElsewhereKeepsSettled (D.state disk) (D.state after) }
    ensures readable { (disk after : D) → ElsewhereKeepsReadable (D.state disk) (D.state after) }
{}

/// Some frame is clean exactly if the number of clean frames is positive, and no page is dirty exactly if the number of
/// dirty frames is 0. A frame is clean or dirty, not both, or its page is clean and held.
pub fn counting()
    ensures some { SomeAreClean }
    ensures none { NoneAreClean }
    ensures apart { CleanAndDirtyAreApart }
    ensures all { AllButHeldAreCounted }
    ensures none_dirty { NoneDirtyIsZero }
    ensures zero { ZeroIsNoneDirty }
{}

/// A change raises the number of dirty frames by one if the page was clean, and keeps it if the page was dirty. It
/// keeps the number of clean frames too if the page was dirty or is held; else it lowers that by one.
pub fn change_counts()
    ensures raises { ChangeOfACleanPageRaises }
    ensures leaves { ChangeOfADirtyPageLeaves }
    ensures keeps_clean { ChangeKeepsClean }
    ensures takes_clean { ChangeTakesAClean }
{}

/// If the sectors of all pages but some are durable, what a crash now may leave has every page but those as it reads.
pub fn images<D: SectorDisk>()
    ensures { (disk : D) → ImagesAgree (D.state disk) }
{}
