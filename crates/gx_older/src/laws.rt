//! Laws of the first version's devices. Each function is its contract alone.
ghost use Rattle.std.specs.Prelude.{◌≡◌};
ghost use Rattle.gx_older.specs.declared.layout.TheConstants.{OLDER_PLACES, OLDER_BODIES, OLDER_BODIES_A};
ghost use Rattle.gx_older.specs.declared.layout.TheConstants.{OLDER_GATES_B, OLDER_BODIES_B};
ghost use Rattle.gx_older.specs.declared.layout.TheConstants.{OLDER_PAGES_AT};
ghost use Rattle.gx_older.specs.Laws.{RenumberingKeeps};

/// The bytes of a device of the first version, renumbered: this version's magic, all that lies in front of the log, the
/// gates and the bodies of each extent, and the pages, each sector as it was; and the gates that the first version
/// didn't have are closed.
pub fn renumbering()
    ensures keeps { RenumberingKeeps }
{}

/// The layout of the first version, in numbers.
pub fn layout()
    ensures places { (OLDER_PLACES ≡ 32) × (OLDER_BODIES ≡ 2048) }
    ensures extents { (OLDER_BODIES_A ≡ 40) × (OLDER_GATES_B ≡ 2088) × (OLDER_BODIES_B ≡ 2120) }
    ensures pages { OLDER_PAGES_AT ≡ 4168 }
{}
