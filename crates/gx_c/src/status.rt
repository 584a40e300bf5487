//! Statuses, as C gets them.
ghost use Rattle.std.specs.Prelude.{◌≡◌};
ghost use Rattle.gx_c.specs.Statuses.{number_in, refused, replied, resulted, session_in};

use gx_geom::Refusal;
use gx_machine::Reply;

/// The status of a handle that has nothing that a call is made of.
pub(crate) const NOTHING: u16 = 18;

/// The status of a call that was refused memory.
pub(crate) const MEMORY: u16 = 10;

/// The session that is in the way, by a refusal.
fn session_in(why: Refusal) -> u8
    ensures { result ≡ session_in why }
{
    match why {
        Refusal::Busy(session) => session,
        _ => 0,
    }
}

/// The status of a refusal.
pub(crate) fn refused(why: Refusal) -> u16
    ensures { result ≡ refused why }
{
    u16::from(why.number()) + 256 * u16::from(session_in(why))
}

/// The status of a reply.
pub(crate) fn replied<B>(reply: &Reply<B>) -> u16
    ensures { result ≡ replied reply.now }
{
    match reply {
        Reply::Refused(why) => refused(*why),
        _ => 0,
    }
}

/// The number of a commit, where a reply has one; else what there was.
pub(crate) fn number_in<B>(reply: &Reply<B>, had: u64) -> u64
    ensures { result ≡ number_in reply.now had }
{
    match reply {
        Reply::Committed(number) => *number,
        _ => had,
    }
}

/// The status of a result.
pub(crate) fn resulted(ended: Result<(), Refusal>) -> u16
    ensures { result ≡ resulted ended }
{
    match ended {
        Ok(()) => 0,
        Err(why) => refused(why),
    }
}
