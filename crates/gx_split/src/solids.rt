//! Boxes of space have a volume for their size.
ghost use Rattle.std.specs.Prelude.{All};
ghost use Rattle.gx_geom.specs.Solids.{Solid, IsSolid};
ghost use Rattle.gx_split.specs.Frames.{IsInSolidFrame};

use crate::Measure;
use crate::boxes::longest_side;
use gx_geom::Box3;

/// A box round some boxes, and how wide, high and deep these are at most.
#[derive(Clone, Copy)]
pub struct SolidFrame {
    cover: Box3,
    width: u32,
    height: u32,
    depth: u32,
}

/// The corners of a box are a box's.
fn know_solid(key: &Box3)
    ensures { IsSolid key.now }
{
    let _ = key.x1();
}

/// A frame with one box more.
fn framed(frame: &SolidFrame, key: &Box3) -> SolidFrame
    ensures this { IsInSolidFrame result key.now }
    ensures others { (other : Solid) → IsInSolidFrame frame.now other → IsInSolidFrame result other }
{
    SolidFrame {
        cover: frame.cover.union(key),
        width: frame.width.max(key.x2().abs_diff(key.x1())),
        height: frame.height.max(key.y2().abs_diff(key.y1())),
        depth: frame.depth.max(key.z2().abs_diff(key.z1())),
    }
}

impl Measure for Box3 {
    ghost use Rattle.std.specs.Prelude.{false};
    ghost use Rattle.gx_geom.specs.Solids.{union, volume};

    type Frame = SolidFrame;

    ghost joined = { union };

    ghost extent = { volume };

    ghost frames = { λ frame keys. All (IsInSolidFrame frame) keys };

    ghost SHORT = { false };

    const SHORT: bool = false;

    fn join(&self, other: &Box3) -> Box3 {
        know_solid(self);
        self.union(other)
    }

    fn covers(&self, other: &Box3) -> bool {
        self.covers(other)
    }

    fn size(&self) -> u128 {
        know_solid(self);
        self.volume()
    }

    fn frame(keys: &[Box3]) -> SolidFrame {
        let mut frame = SolidFrame {
            cover: keys[0],
            width: 0,
            height: 0,
            depth: 0,
        };
        for key in keys {
            frame = framed(&frame, key);
        }
        frame
    }

    fn reach(&self, frame: &SolidFrame) -> u128 {
        know_solid(self);
        let cover = &frame.cover;
        let width = longest_side(self.x1(), self.x2(), cover.x1(), cover.x2(), frame.width);
        let height = longest_side(self.y1(), self.y2(), cover.y1(), cover.y2(), frame.height);
        let depth = longest_side(self.z1(), self.z2(), cover.z1(), cover.z2(), frame.depth);
        u128::from(u64::from(width) * u64::from(height)) * u128::from(depth)
    }
}
