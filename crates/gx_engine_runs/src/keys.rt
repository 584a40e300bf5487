//! Random keys, of both classes.
use gx_class::{Box2Class, IntervalClass, KeyClass, Probing, ReadKeys};
use gx_geom::{Box2, Interval};
use gx_plain_reader::Key;
use rand_core::utils::NextWord;
use rand_pcg::Pcg32;

/// How wide the grid is on which keys begin.
const GRID: usize = 40;

/// A number below this one; 0 if there is none.
pub(crate) fn below(draw: &mut Pcg32, bound: usize) -> usize {
    let word = draw.next_word() as usize;
    if bound == 0 { 0 } else { word % bound }
}

/// A number below this one, of a key.
fn corner(draw: &mut Pcg32, bound: usize) -> i32 {
    i32::try_from(below(draw, bound)).unwrap_or(0)
}

/// A class with random keys, printed as the plain reader prints them.
pub(crate) trait Drawn: ReadKeys + Probing {
    /// A small key on a grid.
    fn draw(draw: &mut Pcg32) -> Self::Key;

    /// A key, as the plain reader has it.
    fn plain_key(key: &Self::Key) -> Key;
}

impl Drawn for Box2Class {
    fn draw(draw: &mut Pcg32) -> Box2 {
        let (x, y) = (corner(draw, GRID), corner(draw, GRID));
        let (width, height) = (corner(draw, 3), corner(draw, 3));
        match Box2::new(x, y, x.saturating_add(width), y.saturating_add(height)) {
            Ok(key) => key,
            Err(_) => Box2Class::start(),
        }
    }

    fn plain_key(key: &Box2) -> Key {
        Key {
            x1: i64::from(key.x1()),
            y1: i64::from(key.y1()),
            x2: i64::from(key.x2()),
            y2: i64::from(key.y2()),
        }
    }
}

impl Drawn for IntervalClass {
    fn draw(draw: &mut Pcg32) -> Interval {
        let lo = i64::from(corner(draw, GRID * GRID));
        let length = i64::from(corner(draw, 12));
        match Interval::new(lo, lo.saturating_add(length)) {
            Ok(key) => key,
            Err(_) => IntervalClass::start(),
        }
    }

    fn plain_key(key: &Interval) -> Key {
        Key {
            x1: key.lo(),
            y1: 0,
            x2: key.hi(),
            y2: 0,
        }
    }
}
