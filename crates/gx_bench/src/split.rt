//! The quadratic split of boxes.
ghost use Rattle.std.specs.Prelude.{◌≡◌, ◌≤◌, ◌*◌, All, length, map};
ghost use Rattle.gx_geom.specs.Rectangles.{union, area};
ghost use Rattle.gx_split.specs.Split.{measure, split_sides};
ghost use Rattle.gx_bench.specs.Sent.{key_of, InOrder};

use crate::sent::{SentBox, key_of};
use gx_geom::Box2;

/// The keys that boxes mean, one for each place.
fn write_keys(sent: &[SentBox], keys: &mut [Box2])
    requires as_many { length keys.old ≡ length sent.now }
    requires in_order { All InOrder sent.now }
    ensures { keys.new ≡ map key_of sent.now }
{
    for place in 0..sent.len() {
        keys[place] = key_of(&sent[place]);
    }
}

/// Splits 2 to 101 boxes in two groups with at least `least` boxes each. In `sides`, which has a place for each box,
/// `true` means the second group.
#[unsafe(no_mangle)]
pub extern "C" fn gx_bench_split(sent: &[SentBox], least: usize, sides: &mut [bool])
    requires some { 1 ≤ least }
    requires enough { 2 * least ≤ length sent.now }
    requires few { length sent.now ≤ 101 }
    requires as_many { length sides.old ≡ length sent.now }
    requires in_order { All InOrder sent.now }
    ensures { sides.new ≡ split_sides (measure union area) (map key_of sent.now) least }
{
    let mut room = [Box2::point(0, 0); 101];
    let keys = &mut room[..sent.len()];
    write_keys(sent, keys);
    gx_split::split(keys, least, sides);
}
