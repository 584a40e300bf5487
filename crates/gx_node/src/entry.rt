//! One entry's bytes.
ghost use Rattle.std.specs.Prelude.{◌≡◌, ◌+◌, length};
ghost use Rattle.gx_page.specs.Bytes.{number_32, number_64};
ghost use Rattle.gx_node.specs.Entries.{IsPair, pair_bytes, child_bytes};
ghost use Rattle.gx_node.specs.Reading.{format_of, is_pair, pair_of, is_child, child_of};
ghost use Rattle.gx_node.specs.Seen.{pair_seen, child_seen};

use gx_class::KeyClass;
use gx_machine::Entry;

/// How many bytes a leaf's entry has after its key: eight for the row, and the mark.
pub const PAIR_TAIL: usize = 9;

/// How many bytes an inner node's entry has after its key, those of the child's page.
pub const CHILD_TAIL: usize = 4;

/// The key that bytes spell, or none if they spell no key of the class. Bytes of another length spell none.
pub fn read_key<K: KeyClass>(bytes: &[u8]) -> Option<K::Key>
    ensures { result ≡ K.reading bytes.now }
{
    K::decode(bytes)
}

fn u32_of(bytes: &[u8]) -> u32
    requires { length bytes.now ≡ 4 }
    ensures { result ≡ number_32 bytes.now }
{
    u32::from_be_bytes([bytes[0], bytes[1], bytes[2], bytes[3]])
}

pub(crate) fn u64_of(bytes: &[u8]) -> u64
    requires { length bytes.now ≡ 8 }
    ensures { result ≡ number_64 bytes.now }
{
    u64::from_be_bytes([
        bytes[0], bytes[1], bytes[2], bytes[3], bytes[4], bytes[5], bytes[6], bytes[7],
    ])
}

/// Whether the bytes are a leaf's entry.
pub(crate) fn is_pair<K: KeyClass>(item: &[u8]) -> bool
    ensures { result ≡ is_pair (format_of K.KeyClass) item.now }
{
    if item.len() != K::KEY + PAIR_TAIL {
        return false;
    }
    let (key, tail) = item.split_at(K::KEY);
    read_key::<K>(key).is_some() && tail[8] < 2
}

/// Whether the bytes are an inner node's entry, where `used` is the greatest page in use.
pub(crate) fn is_child<K: KeyClass>(item: &[u8], used: u32) -> bool
    ensures { result ≡ is_child (format_of K.KeyClass) used item.now }
{
    if item.len() != K::KEY + CHILD_TAIL {
        return false;
    }
    let (key, tail) = item.split_at(K::KEY);
    let page = u32_of(tail);
    read_key::<K>(key).is_some() && 1 <= page && page <= used
}

/// The pair of which these are the bytes, and whether it is marked.
pub(crate) fn pair_of<K: KeyClass>(item: &[u8]) -> (Entry<K::Key>, bool)
    requires { length item.now ≡ K.KEY + 9 }
    ensures { pair_seen result ≡ pair_of (format_of K.KeyClass) item.now }
{
    let (key, tail) = item.split_at(K::KEY);
    let (row, mark) = tail.split_at(8);
    let key = read_key::<K>(key).unwrap_or(K::start());
    let row = u64_of(row);
    (Entry { row, key }, mark[0] == 1)
}

/// The mark of a pair of which these are the bytes.
pub(crate) fn mark_of<K: KeyClass>(item: &[u8]) -> bool
    requires { length item.now ≡ K.KEY + 9 }
    ensures { result ≡ (pair_of (format_of K.KeyClass) item.now).marked }
{
    item[K::KEY + 8] == 1
}

/// The child of which these are the bytes: its bound and its page.
pub(crate) fn child_of<K: KeyClass>(item: &[u8]) -> (K::Key, u32)
    requires { length item.now ≡ K.KEY + 4 }
    ensures { child_seen result ≡ child_of (format_of K.KeyClass) item.now }
{
    let (key, page) = item.split_at(K::KEY);
    let key = read_key::<K>(key).unwrap_or(K::start());
    (key, u32_of(page))
}

/// The page of a child of which these are the bytes.
pub(crate) fn page_of<K: KeyClass>(item: &[u8]) -> u32
    requires { length item.now ≡ K.KEY + 4 }
    ensures { result ≡ (child_of (format_of K.KeyClass) item.now).page }
{
    u32_of(item.split_at(K::KEY).1)
}

/// Writes a pair's bytes over `out`, which has room for just these.
pub(crate) fn write_pair<K: KeyClass>(row: u64, key: K::Key, marked: bool, out: &mut [u8])
    requires { length out.old ≡ K.KEY + 9 }
    ensures pair { IsPair K.is_key (record { row = row; key = key; marked = marked }) }
    ensures bytes { out.new ≡ pair_bytes K.spelling (record { row = row; key = key; marked = marked }) }
{
    K::known(&key);
    let (front, tail) = out.split_at_mut(K::KEY);
    let (middle, last) = tail.split_at_mut(8);
    K::encode(key, front);
    middle.copy_from_slice(&row.to_be_bytes());
    last.copy_from_slice(&[u8::from(marked)]);
}

/// Writes a child's bytes over `out`, which has room for just these.
pub(crate) fn write_child<K: KeyClass>(bound: K::Key, child: u32, out: &mut [u8])
    requires { length out.old ≡ K.KEY + 4 }
    ensures { out.new ≡ child_bytes K.spelling (child_seen (bound, child)) }
{
    let (key, page) = out.split_at_mut(K::KEY);
    K::encode(bound, key);
    page.copy_from_slice(&child.to_be_bytes());
}
