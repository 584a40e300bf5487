//! Keys read from any bytes.
ghost use Rattle.std.specs.Prelude.{◌≡◌, ◌<◌, ℕ, Bool, true, List, length, slice_index};

use crate::{Box2Class, Box3Class, IntervalClass, KeyClass};

/// A class that reads a value also from bytes that are no key's. That value isn't a key: a log whose record has such
/// bytes is damaged.
pub trait ReadKeys: KeyClass {
    /// What a key's bytes say.
    ghost said: { List ℕ → Self.Key };

    /// Whether that is a key.
    ghost is_proper: { Self.Key → Bool };

    /// A key's bytes say that key.
    ghost said_back: { (k : Self.Key) → Self.is_key k → said (Self.spelling k) ≡ k };

    /// Each key is one by the test.
    ghost key_is_proper: { (k : Self.Key) → Self.is_key k → is_proper k ≡ true };

    /// Bytes are read as a key only if they are that key's.
    ghost said_only: { (bytes : List ℕ) → length bytes ≡ Self.KEY → ((i : ℕ) → slice_index bytes i < 256)
        → is_proper (said bytes) ≡ true
        → Self.is_key (said bytes) × (bytes ≡ Self.spelling (said bytes)) };
}

impl ReadKeys for Box2Class {
    ghost use Rattle.gx_class.specs.Boxes.{corners_of, in_order};
    ghost use Rattle.gx_class.specs.BoxReadings.{corners_back};
    ghost use Rattle.gx_class.specs.BoxBytes.{box_in_order, box_only};

    ghost said = { corners_of };

    ghost is_proper = { in_order };

    ghost said_back = { corners_back };

    ghost key_is_proper = { box_in_order };

    ghost said_only = { box_only };
}

impl ReadKeys for IntervalClass {
    ghost use Rattle.gx_class.specs.Intervals.{ends_of};
    ghost use Rattle.gx_class.specs.IntervalBytes.{in_order, ends_back, ends_in_order, ends_only};

    ghost said = { ends_of };

    ghost is_proper = { in_order };

    ghost said_back = { ends_back };

    ghost key_is_proper = { ends_in_order };

    ghost said_only = { ends_only };
}

impl ReadKeys for Box3Class {
    ghost use Rattle.gx_class.specs.SolidKeys.{corners_of, in_order};
    ghost use Rattle.gx_class.specs.SolidReadings.{corners_back};
    ghost use Rattle.gx_class.specs.SolidBytes.{solid_in_order, solid_only};

    ghost said = { corners_of };

    ghost is_proper = { in_order };

    ghost said_back = { corners_back };

    ghost key_is_proper = { solid_in_order };

    ghost said_only = { solid_only };
}
