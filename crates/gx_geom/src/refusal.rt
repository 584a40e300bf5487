//! Why a call was refused.
ghost use Rattle.std.specs.Prelude.{◌≡◌, ◌≤◌, ◌++◌, codes, decimal, length};
ghost use Rattle.gx_geom.specs.Refusals.{refusal_number, refusal_text};

use arrayvec::ArrayString;
use itoa::Buffer;

/// Why a call was refused. Each has a number and a short text.
#[derive(Clone, Copy, Debug, PartialEq, Eq)]
pub enum Refusal {
    /// The session has no transaction open.
    NoTransaction,
    /// The session has a transaction open.
    InTransaction,
    /// The entry is present already.
    Present,
    /// The entry isn't there.
    Absent,
    /// This other session claims the entry or holds a predicate on it.
    Busy(u8),
    /// The corners are reversed.
    BadBox,
    /// A split needs more pages than are unused.
    PagesFull,
    /// All places for claims are taken.
    ClaimsFull,
    /// All places for the session's predicates are taken.
    PredicatesFull,
    /// Memory was refused.
    Memory,
    /// The device failed.
    Device,
    /// The device had failed before.
    Failed,
    /// What the device holds can't be read.
    Damaged,
    /// The device holds no index.
    NotFormatted,
    /// There is no session of this number.
    BadSession,
    /// The session has a call open.
    CallOpen,
    /// The device has too few sectors.
    TooSmall,
    /// A parameter is out of its range.
    BadParameter,
    /// The session has no call open.
    NoCall,
    /// The record, or the numbers of commits or transactions, are used up.
    HistoryFull,
    /// The device holds an index of an older version of the format.
    OldVersion,
}

impl Refusal {
    /// The refusal's number, from 1 to 21.
    pub fn number(self) -> u8
        ensures { result ≡ refusal_number self }
    {
        match self {
            Refusal::NoTransaction => 1,
            Refusal::InTransaction => 2,
            Refusal::Present => 3,
            Refusal::Absent => 4,
            Refusal::Busy(_) => 5,
            Refusal::BadBox => 6,
            Refusal::PagesFull => 7,
            Refusal::ClaimsFull => 8,
            Refusal::PredicatesFull => 9,
            Refusal::Memory => 10,
            Refusal::Device => 11,
            Refusal::Failed => 12,
            Refusal::Damaged => 13,
            Refusal::NotFormatted => 14,
            Refusal::BadSession => 15,
            Refusal::CallOpen => 16,
            Refusal::TooSmall => 17,
            Refusal::BadParameter => 18,
            Refusal::NoCall => 19,
            Refusal::HistoryFull => 20,
            Refusal::OldVersion => 21,
        }
    }

    /// The refusal's text, without its number.
    pub fn text(self) -> ArrayString<16>
        ensures { result.bytes ≡ refusal_text self }
    {
        match self {
            Refusal::NoTransaction => short("no transaction"),
            Refusal::InTransaction => short("in transaction"),
            Refusal::Present => short("present"),
            Refusal::Absent => short("absent"),
            Refusal::Busy(session) => busy(session),
            Refusal::BadBox => short("bad box"),
            Refusal::PagesFull => short("pages full"),
            Refusal::ClaimsFull => short("claims full"),
            Refusal::PredicatesFull => short("predicates full"),
            Refusal::Memory => short("memory"),
            Refusal::Device => short("device"),
            Refusal::Failed => short("failed"),
            Refusal::Damaged => short("damaged"),
            Refusal::NotFormatted => short("not formatted"),
            Refusal::BadSession => short("bad session"),
            Refusal::CallOpen => short("call open"),
            Refusal::TooSmall => short("too small"),
            Refusal::BadParameter => short("bad parameter"),
            Refusal::NoCall => short("no call"),
            Refusal::HistoryFull => short("history full"),
            Refusal::OldVersion => short("old version"),
        }
    }
}

fn short(text: &str) -> ArrayString<16>
    requires { length text.now ≤ 16 }
    ensures { result.bytes ≡ text.now }
{
    let mut out = ArrayString::new();
    out.push_str(text);
    out
}

fn busy(session: u8) -> ArrayString<16>
    ensures { result.bytes ≡ codes "busy " ++ decimal session }
{
    let mut digits = Buffer::new();
    let mut out = short("busy ");
    out.push_str(digits.format(session));
    out
}
