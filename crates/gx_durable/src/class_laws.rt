//! What the readings of a class keep. Each function is its contract alone.
ghost use Rattle.gx_recovery.specs.Known.{Limits, IsLawful};
ghost use Rattle.gx_durable.specs.Legal.{ReadsUsed};
ghost use Rattle.gx_durable.specs.Classes.{known_at, reading_by};
ghost use Rattle.gx_durable.specs.ClassLaws.{KeysAreRead, OnlyKeysAreEntries, NodesAreRead, WhatStandsIsLegalThere};

use crate::OfClass;
use crate::laws::a_crash_leaves_a_kept_set;
use gx_class::ReadKeys;
use gx_node::laws::{inners, leaves};

/// A key's bytes are read as that key, which is one of the class, and no other bytes are read as one.
/// A node's page is read as that node.
pub fn bytes_are_read<K: ReadKeys>()
    ensures keys { (l : Limits) → KeysAreRead K.is_key K.spelling (known_at K.Key.Shape K.is_proper l)
        (reading_by K.said K.KeyClass) }
    ensures only { (l : Limits) → OnlyKeysAreEntries K.is_key K.spelling (known_at K.Key.Shape K.is_proper l)
        (reading_by K.said K.KeyClass) }
    ensures nodes { (l : Limits) → NodesAreRead K.is_key K.spelling (known_at K.Key.Shape K.is_proper l)
        (reading_by K.said K.KeyClass) }
{
    leaves::<K>();
    inners::<K>();
}

/// What is known of a class is lawful, and is read of the pages in use. So whatever a crash leaves that stands for a
/// kept set is a legal tree for the log that it has, with that set.
pub fn what_stands_is_legal<K: ReadKeys>()
    ensures lawful { (l : Limits) → IsLawful (known_at K.Key.Shape K.is_proper l) }
    ensures used { (l : Limits) → ReadsUsed (known_at K.Key.Shape K.is_proper l) }
    ensures legal { (l : Limits) → WhatStandsIsLegalThere (known_at K.Key.Shape K.is_proper l)
        (reading_by K.said K.KeyClass) }
{
    a_crash_leaves_a_kept_set::<OfClass<K>>();
}
