//! The lines of a tree's pages, read from their frames.
ghost use Rattle.std.specs.Prelude.{◌≡◌, ◌++◌, OnOk, IfErr, OnErr};
ghost use Rattle.std.specs.List.{flat_map};
ghost use Rattle.gx_node.specs.Reading.{format_of};
ghost use Rattle.gx_node.specs.Store.{node_of};
ghost use Rattle.gx_script.specs.Corners.{grammar_of};
ghost use Rattle.gx_script.specs.Noting.{TakesNoMore};
ghost use Rattle.gx_script.specs.Writes.{IsPut, IsCut};
ghost use Rattle.gx_restart.specs.Pages.{IsNode};
ghost use Rattle.gx_restart.specs.Text.{head_line, child_line, entry_line, node_text};

use super::lines::Lines;
use super::stop::Stop;
use gx_class::KeyClass;
use gx_node::{Inner, Leaf};
use gx_page::Page;
use gx_script::{Corners, Noted};
use std::io::Write;

/// Adds the first line of a tree: the number of the last commit, the greatest page in use, and the counter of splits.
///
/// `Write` if the writer fails or takes nothing; what was written then is a beginning of what waited with that line
/// behind it.
pub(crate) fn put_head<W: Write>(
    writer: &mut Noted<W>,
    lines: &mut Lines,
    number: u64,
    used: u32,
    counter: u64,
) -> Result<(), Stop>
    ensures ok { OnOk result (IsPut
        (W.contents writer.old.inner) (W.contents writer.new.inner) lines.old
        (head_line number used counter) lines.new) }
    ensures cut { IfErr result (λ e. (e ≡ Stop.Write) × IsCut
        (W.contents writer.old.inner) (W.contents writer.new.inner) (lines.old ++ head_line number used counter)) }
    ensures stuck { OnErr result (TakesNoMore writer.new) }
{
    lines.make_room(writer)?;
    lines.add_head(number, used, counter);
    Ok(())
}

/// Adds the lines of a page, under this number: its own, and one for each of its entries, by slot.
///
/// `Write` if the writer fails or takes nothing; what was written then is a beginning of what waited with those lines
/// behind it.
pub(crate) fn put_page<W: Write, B: Corners, K: KeyClass<Key = B>>(
    writer: &mut Noted<W>,
    lines: &mut Lines,
    number: u32,
    page: &Page,
) -> Result<(), Stop>
    requires { IsNode (format_of K.KeyClass) page.now }
    ensures ok { OnOk result (IsPut
        (W.contents writer.old.inner) (W.contents writer.new.inner) lines.old
        (node_text (grammar_of B.Corners) number (node_of (format_of K.KeyClass) page.now)) lines.new) }
    ensures cut { IfErr result (λ e. (e ≡ Stop.Write)
        × IsCut
        (W.contents writer.old.inner) (W.contents writer.new.inner)
        (lines.old ++ node_text (grammar_of B.Corners) number (node_of (format_of K.KeyClass) page.now))) }
    ensures stuck { OnErr result (TakesNoMore writer.new) }
{
    lines.make_room(writer)?;
    let count = page.count();
    lines.add_page(number, page.level(), page.nsn(), page.right(), count);
    if page.level() == 0 {
        put_pairs::<W, B, K>(writer, lines, &Leaf::of(page))
    } else {
        // the pages that its entries name were tested when the page was brought
        put_children::<W, B, K>(writer, lines, &Inner::of(page, u32::MAX))
    }
}

// Adds the lines of a leaf's entries.
fn put_pairs<W: Write, B: Corners, K: KeyClass<Key = B>>(
    writer: &mut Noted<W>,
    lines: &mut Lines,
    leaf: &Leaf<K>,
) -> Result<(), Stop>
    ensures ok { OnOk result (IsPut
        (W.contents writer.old.inner) (W.contents writer.new.inner) lines.old
        (flat_map (entry_line (grammar_of B.Corners)) leaf.now.pairs) lines.new) }
    ensures cut { IfErr result (λ e. (e ≡ Stop.Write) × IsCut
        (W.contents writer.old.inner) (W.contents writer.new.inner)
        (lines.old ++ flat_map (entry_line (grammar_of B.Corners)) leaf.now.pairs)) }
    ensures stuck { OnErr result (TakesNoMore writer.new) }
{
    for slot in 0..leaf.len() {
        lines.make_room(writer)?;
        let (entry, marked) = leaf.entry(slot);
        lines.add_entry(&entry, marked);
    }
    Ok(())
}

// Adds the lines of an inner node's entries.
fn put_children<W: Write, B: Corners, K: KeyClass<Key = B>>(
    writer: &mut Noted<W>,
    lines: &mut Lines,
    inner: &Inner<K>,
) -> Result<(), Stop>
    ensures ok { OnOk result (IsPut
        (W.contents writer.old.inner) (W.contents writer.new.inner) lines.old
        (flat_map (child_line (grammar_of B.Corners)) inner.now.children) lines.new) }
    ensures cut { IfErr result (λ e. (e ≡ Stop.Write) × IsCut
        (W.contents writer.old.inner) (W.contents writer.new.inner)
        (lines.old ++ flat_map (child_line (grammar_of B.Corners)) inner.now.children)) }
    ensures stuck { OnErr result (TakesNoMore writer.new) }
{
    for slot in 0..inner.len() {
        lines.make_room(writer)?;
        let (key, page) = inner.child(slot);
        lines.add_child(&key, page);
    }
    Ok(())
}
