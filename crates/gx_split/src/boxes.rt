//! Boxes have an area for their size.
ghost use Rattle.std.specs.Prelude.{◌≡◌, ◌≤◌, ◌≤ℤ◌, ◌-ℤ◌, ℤ, All, unsigned_abs};
ghost use Rattle.std.specs.Int.{int_min, int_max};
ghost use Rattle.gx_geom.specs.Rectangles.{Rectangle, IsBox};
ghost use Rattle.gx_split.specs.Frames.{IsInFrame};

use crate::Measure;
use gx_geom::Box2;

/// A box round some boxes, and how wide and high these are at most.
#[derive(Clone, Copy)]
pub struct BoxFrame {
    cover: Box2,
    width: u32,
    height: u32,
}

/// The corners of a box are a box's.
fn know_box(key: &Box2)
    ensures { IsBox key.now }
{
    let _ = key.x1();
}

/// A frame with one box more.
fn framed(frame: &BoxFrame, key: &Box2) -> BoxFrame
    ensures this { IsInFrame result key.now }
    ensures others { (other : Rectangle) → IsInFrame frame.now other → IsInFrame result other }
{
    BoxFrame {
        cover: frame.cover.union(key),
        width: frame.width.max(key.x2().abs_diff(key.x1())),
        height: frame.height.max(key.y2().abs_diff(key.y1())),
    }
}

/// How long a side from `low` to `high` becomes at most, if it is joined with one of at most `longest` that lies
/// between `from` and `to`.
pub(crate) fn longest_side(low: i32, high: i32, from: i32, to: i32, longest: u32) -> u32
    requires { low ≤ℤ high }
    ensures { (a b : ℤ) → from ≤ℤ a → a ≤ℤ b → b ≤ℤ to → unsigned_abs (b -ℤ a) ≤ longest
        → unsigned_abs (int_max high b -ℤ int_min low a) ≤ result }
{
    let own = longest.max(high.abs_diff(low));
    own.max(high.abs_diff(from)).max(to.abs_diff(low))
}

impl Measure for Box2 {
    ghost use Rattle.std.specs.Prelude.{true};
    ghost use Rattle.gx_geom.specs.Rectangles.{union, area};

    type Frame = BoxFrame;

    ghost joined = { union };

    ghost extent = { area };

    ghost frames = { λ frame keys. All (IsInFrame frame) keys };

    ghost SHORT = { true };

    const SHORT: bool = true;

    fn join(&self, other: &Box2) -> Box2 {
        know_box(self);
        self.union(other)
    }

    fn covers(&self, other: &Box2) -> bool {
        self.covers(other)
    }

    fn size(&self) -> u128 {
        know_box(self);
        u128::from(self.area())
    }

    fn frame(keys: &[Box2]) -> BoxFrame {
        let mut frame = BoxFrame {
            cover: keys[0],
            width: 0,
            height: 0,
        };
        for key in keys {
            frame = framed(&frame, key);
        }
        frame
    }

    fn reach(&self, frame: &BoxFrame) -> u128 {
        know_box(self);
        let cover = &frame.cover;
        let width = longest_side(self.x1(), self.x2(), cover.x1(), cover.x2(), frame.width);
        let height = longest_side(self.y1(), self.y2(), cover.y1(), cover.y2(), frame.height);
        u128::from(u64::from(width) * u64::from(height))
    }
}
