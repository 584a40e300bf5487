//! What is damaged on a device whose opening was refused: the place, and the rule that is broken there.
mod device;
mod pages;

pub use device::examine;
use gx_found_log::LogDamage;
use gx_legality::Rule;
use std::fmt;

/// What is damaged on a device.
#[derive(Clone, Copy)]
pub enum Damage {
    /// Its log: where, and the rule that is broken there.
    Log(LogDamage),
    /// Its log counts so many pages in use, which are more than there are.
    TooManyPages(u32),
    /// This page: its place doesn't hold a page of its number, or a node of the class.
    Unreadable(u32),
    /// This page, which doesn't keep this rule of a legal tree.
    Broken(u32, Rule),
}

impl fmt::Display for Damage {
    ghost use Rattle.std.specs.Prelude.{Some};
    ghost use Rattle.gx_opening.specs.Texts.{damage_text};

    ghost output = { λ damage. Some (damage_text damage) };

    /// A line for the user, without its end.
    fn fmt<W: fmt::Write>(&self, f: &mut fmt::Formatter<W>) -> fmt::Result {
        match self {
            Damage::Log(damage) => write!(f, "{damage}"),
            Damage::TooManyPages(used) => write!(f, "{used} pages are in use, which are too many"),
            Damage::Unreadable(page) => write!(f, "page {page} can't be read"),
            Damage::Broken(page, rule) => write!(f, "page {page}: {rule}"),
        }
    }
}
