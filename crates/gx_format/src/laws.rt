//! Laws of a format. Each function is its contract alone.
ghost use Rattle.std.specs.Prelude.{◌≡◌};
ghost use Rattle.gx_disk.specs.declared.layout.TheConstants.{LOG_AT, LOG_SECTORS, PAGES_AT, PAGE_SECTORS};
ghost use Rattle.gx_disk.specs.declared.layout.TheConstants.{LEAST_SECTORS, MIN_PAGES, MAX_PAGES, MIN_SECTORS};
ghost use Rattle.gx_glog.specs.declared.extent.TheConstants.{PLACES, BODY_SECTORS, BODY_SIZE, SELECTOR};
ghost use Rattle.gx_glog.specs.declared.extent.TheConstants.{GATES_A, BODIES_A, GATES_B, BODIES_B};
ghost use Rattle.gx_glog.specs.declared.parameters.TheConstants.{PARAMETERS};
ghost use Rattle.gx_node.specs.declared.items.TheConstants.{MAX_ENTRIES};
ghost use Rattle.gx_format.specs.declared.fresh.TheConstants.{MIN_FANOUT};
ghost use Rattle.gx_format.specs.Laws.{ClearingLeavesOld, LayingLeavesNone};
ghost use Rattle.gx_format.specs.Laws.{NamingLeavesFresh, FormattingLeavesOldOrFresh};

use gx_disk::SectorDisk;

/// Of a format on an honest device, at each moment, even if a call fails: in the first write and its sync each image is
/// one from before except for sector 0; from then on none is an index; and from the last write on each is none, or the
/// fresh one.
pub fn phases<D: SectorDisk>()
    ensures clearing { ClearingLeavesOld D D.state }
    ensures laying { LayingLeavesNone D D.state }
    ensures naming { NamingLeavesFresh D D.state }
    ensures all { FormattingLeavesOldOrFresh D D.state }
{}

/// The layout of an index, in numbers: sectors are counted from 0, a page has eight, a body 32,768 bytes.
pub fn layout()
    ensures heads { (PARAMETERS ≡ 1) × (SELECTOR ≡ 2) }
    ensures log { (LOG_AT ≡ 8) × (LOG_SECTORS ≡ 16640) }
    ensures places { (PLACES ≡ 128) × (BODY_SECTORS ≡ 64) × (BODY_SIZE ≡ 32768) }
    ensures extents { (GATES_A ≡ 8) × (BODIES_A ≡ 136) × (GATES_B ≡ 8328) × (BODIES_B ≡ 8456) }
    ensures pages { (PAGES_AT ≡ 16648) × (PAGE_SECTORS ≡ 8) }
    ensures count { (MIN_PAGES ≡ 8) × (MAX_PAGES ≡ 65536) × (MIN_SECTORS ≡ 16712) }
    ensures tested { LEAST_SECTORS ≡ 4232 }
    ensures fanout { (MIN_FANOUT ≡ 4) × (MAX_ENTRIES ≡ 100) }
{}
