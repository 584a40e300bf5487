//! Why a log isn't read back.
ghost use Rattle.std.specs.Prelude.{◌≡◌};
ghost use Rattle.gx_found_log.specs.Faults.{refusal_of};

use gx_geom::Refusal;
use gx_glog::Extent;
use gx_recovery::LogRule;
use std::fmt;

/// What is wrong with the bytes of a body.
#[derive(Clone, Copy)]
pub struct Misfit {
    /// How many bytes of whole records come before it.
    pub at: usize,
    /// The rule that is broken there.
    pub rule: LogRule,
}

impl Misfit {
    /// This rule is broken behind so many bytes.
    pub(crate) fn new(at: usize, rule: LogRule) -> Misfit
        ensures { result ≡ record { at = at; rule = rule } }
    {
        Misfit { at, rule }
    }
}

/// What is wrong with the log of a device.
#[derive(Clone, Copy)]
pub struct LogDamage {
    /// The extent that is selected.
    pub extent: Extent,
    /// The place of the body in it, 0 to 127. All before it are whole.
    pub body: u8,
    /// How many bytes of whole records come before the damage in this body.
    pub at: usize,
    /// The rule that is broken there.
    pub rule: LogRule,
}

impl fmt::Display for LogDamage {
    ghost use Rattle.std.specs.Prelude.{Some};
    ghost use Rattle.gx_found_log.specs.Texts.{damage_text};

    ghost output = { λ damage. Some (damage_text damage) };

    /// A line for the user, without its end.
    fn fmt<W: fmt::Write>(&self, f: &mut fmt::Formatter<W>) -> fmt::Result {
        let (body, at, rule) = (self.body, self.at, self.rule);
        match self.extent {
            Extent::A => write!(f, "log A, body {body}, byte {at}: {rule}"),
            Extent::B => write!(f, "log B, body {body}, byte {at}: {rule}"),
        }
    }
}

/// Why a log isn't read back.
#[derive(Clone, Copy)]
pub enum LogFault {
    /// Memory was refused.
    Memory,
    /// The device failed.
    Device,
    /// The log is damaged.
    Damaged(LogDamage),
}

impl LogFault {
    /// The refusal that a caller is given.
    pub fn refusal(&self) -> Refusal
        ensures { result ≡ refusal_of self.now }
    {
        match self {
            LogFault::Memory => Refusal::Memory,
            LogFault::Device => Refusal::Device,
            LogFault::Damaged(_) => Refusal::Damaged,
        }
    }
}
