//! Edits of an inner node in place. None takes memory, and each leaves an inner node of the same page number, level,
//! sequence number and rightlink. The greatest page in use, `used`, isn't read: it says which test the page passed.
ghost use Rattle.std.specs.Prelude.{◌≡◌, ◌<◌, ◌≤◌, ◌∷◌, ◌++◌, [], true, length, Some, slice_get, slice_set};
ghost use Rattle.gx_node.specs.Lists.{staying};
ghost use Rattle.gx_node.specs.Trees.{Child};
ghost use Rattle.gx_node.specs.Edits.{with_children, bounded_by};
ghost use Rattle.gx_node.specs.Reading.{format_of, is_inner, inner_of};
ghost use Rattle.gx_node.specs.Seen.{child_seen};
ghost use Rattle.gx_node.specs.declared.items.TheConstants.{MAX_ENTRIES};

use crate::entry::{CHILD_TAIL, child_of, write_child};
use crate::items::{append_item, keep_staying};
use gx_class::{KeyClass, MAX_KEY};
use gx_page::Page;

/// Puts a child after the last of an inner node that has fewer than 100.
pub fn append<K: KeyClass>(page: &mut Page, bound: K::Key, child: u32, _used: u32)
    requires inner { is_inner (format_of K.KeyClass) _used page.old ≡ true }
    requires room { length (inner_of (format_of K.KeyClass) page.old).children < MAX_ENTRIES }
    requires taken { (1 ≤ child) × (child ≤ _used) }
    ensures inner { is_inner (format_of K.KeyClass) _used page.new ≡ true }
    ensures node { inner_of (format_of K.KeyClass) page.new ≡ with_children (inner_of (format_of K.KeyClass) page.old)
        ((inner_of (format_of K.KeyClass) page.old).children ++ child_seen (bound, child) ∷ []) }
    ensures number { page.new.number ≡ page.old.number }
{
    K::known(&bound);
    let size = K::KEY + CHILD_TAIL;
    let mut bytes = [0; MAX_KEY + CHILD_TAIL];
    write_child::<K>(bound, child, &mut bytes[..size]);
    append_item(page, &bytes[..size]);
}

/// Puts a bound in the place of a slot's own. The child stays on its page.
pub fn set_bound<K: KeyClass>(page: &mut Page, slot: usize, bound: K::Key, _used: u32)
    requires inner { is_inner (format_of K.KeyClass) _used page.old ≡ true }
    requires slot { slot < length (inner_of (format_of K.KeyClass) page.old).children }
    ensures inner { is_inner (format_of K.KeyClass) _used page.new ≡ true }
    ensures node { (child : Child K.Key)
        → slice_get (inner_of (format_of K.KeyClass) page.old).children slot ≡ Some child
        → inner_of (format_of K.KeyClass) page.new ≡ with_children (inner_of (format_of K.KeyClass) page.old)
        (slice_set (inner_of (format_of K.KeyClass) page.old).children slot (bounded_by bound child)) }
    ensures number { page.new.number ≡ page.old.number }
{
    K::known(&bound);
    let (_, child) = child_of::<K>(page.get(slot));
    let size = K::KEY + CHILD_TAIL;
    let mut bytes = [0; MAX_KEY + CHILD_TAIL];
    write_child::<K>(bound, child, &mut bytes[..size]);
    page.replace(slot, &bytes[..size]);
}

/// Takes the children out whose side is `true`.
/// A split keeps the one side on the node's page so, and the other on a copy of it.
pub fn keep<K: KeyClass>(page: &mut Page, sides: &[bool], _used: u32)
    requires inner { is_inner (format_of K.KeyClass) _used page.old ≡ true }
    requires sides { length sides.now ≡ length (inner_of (format_of K.KeyClass) page.old).children }
    ensures inner { is_inner (format_of K.KeyClass) _used page.new ≡ true }
    ensures node { inner_of (format_of K.KeyClass) page.new ≡ with_children (inner_of (format_of K.KeyClass) page.old)
        (staying sides.now (inner_of (format_of K.KeyClass) page.old).children) }
    ensures number { page.new.number ≡ page.old.number }
{
    keep_staying(page, sides);
}
