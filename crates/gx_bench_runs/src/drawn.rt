//! Random boxes and windows.
ghost use Rattle.std.specs.Prelude.{◌≤◌, ◌<◌};

use gx_class::{Box2Class, Box3Class, Probing};
use gx_geom::{Box2, Box3};

/// How long the plane and the space are along each axis.
const PLANE: u64 = 1_048_576;

/// How long a box is along each axis, at most.
const BOX: u64 = 1024;

/// How long a window of the plane is along each axis: it has some ten of a hundred thousand boxes.
const WINDOW: i32 = 10_000;

/// The same of a window of space.
const CUBE: i32 = 48_000;

/// The next of a sequence of numbers below 2^32 (Knuth 1997).
fn draw(state: &mut u64) -> u64 {
    *state = state
        .wrapping_mul(6_364_136_223_846_793_005)
        .wrapping_add(1_442_695_040_888_963_407);
    *state >> 32
}

/// One of so many places.
pub(crate) fn draw_place(state: &mut u64, places: u64) -> u64
    requires { 1 ≤ places }
    ensures { result < places }
{
    draw(state) % places
}

/// Where a box begins along an axis.
fn draw_start(state: &mut u64) -> u64
    ensures { result < 1048576 }
{
    draw_place(state, PLANE)
}

/// How long a box is along an axis.
fn draw_length(state: &mut u64) -> u64
    ensures { result < 1024 }
{
    draw_place(state, BOX)
}

/// A class with random keys.
pub(crate) trait RandomKeys: Probing {
    /// A key.
    fn draw_key(state: &mut u64) -> Option<Self::Key>;

    /// What keys are looked for in.
    fn draw_window(state: &mut u64) -> Option<Self::Key>;
}

impl RandomKeys for Box2Class {
    fn draw_key(state: &mut u64) -> Option<Box2> {
        let (x, y) = (draw_start(state), draw_start(state));
        let (x2, y2) = (x + draw_length(state), y + draw_length(state));
        Box2::new(x as i32, y as i32, x2 as i32, y2 as i32).ok()
    }

    fn draw_window(state: &mut u64) -> Option<Box2> {
        let (x, y) = (draw_start(state) as i32, draw_start(state) as i32);
        Box2::new(x, y, x + WINDOW, y + WINDOW).ok()
    }
}

impl RandomKeys for Box3Class {
    fn draw_key(state: &mut u64) -> Option<Box3> {
        let (x, y, z) = (draw_start(state), draw_start(state), draw_start(state));
        let (x2, y2) = (x + draw_length(state), y + draw_length(state));
        let z2 = z + draw_length(state);
        Box3::new(
            x as i32, y as i32, z as i32, x2 as i32, y2 as i32, z2 as i32,
        )
        .ok()
    }

    fn draw_window(state: &mut u64) -> Option<Box3> {
        let (x, y) = (draw_start(state) as i32, draw_start(state) as i32);
        let z = draw_start(state) as i32;
        Box3::new(x, y, z, x + CUBE, y + CUBE, z + CUBE).ok()
    }
}
