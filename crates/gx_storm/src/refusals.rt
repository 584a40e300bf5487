//! The refusals that a storm reports: faults, and a full record.
ghost use Rattle.std.specs.Prelude.{◌≡◌, None};
ghost use Rattle.std.specs.List.{fold};
ghost use Rattle.gx_storm.specs.Refusals.{least_given_up, least_told, lesser, told_of, told_reply};

use crate::Handed;
use gx_geom::{Refusal, Shape};
use gx_machine::{Item, Reply};

/// The refusal that a storm reports, if a reply has one.
pub(crate) fn told_reply<B: Shape>(reply: &Reply<B>) -> Option<Refusal>
    ensures { result ≡ told_reply reply.now }
{
    match reply {
        Reply::Refused(Refusal::Device) => Some(Refusal::Device),
        Reply::Refused(Refusal::Failed) => Some(Refusal::Failed),
        Reply::Refused(Refusal::Damaged) => Some(Refusal::Damaged),
        Reply::Refused(Refusal::HistoryFull) => Some(Refusal::HistoryFull),
        _ => None,
    }
}

/// The refusal that a storm reports, if an item has one.
fn told_of<B: Shape>(item: &Item<B>) -> Option<Refusal>
    ensures { result ≡ told_of item.now }
{
    match item {
        Item::Replied(_, reply) => told_reply(reply),
        Item::Asked(..) | Item::Sealed(..) => None,
    }
}

/// The lesser of two refusals by number.
pub(crate) fn lesser(one: Option<Refusal>, other: Option<Refusal>) -> Option<Refusal>
    ensures { result ≡ lesser one other }
{
    match (one, other) {
        (None, least) => least,
        (least, None) => least,
        (Some(a), Some(b)) => {
            if a.number() <= b.number() {
                Some(a)
            } else {
                Some(b)
            }
        }
    }
}

/// The least such refusal that a record has.
pub(crate) fn least_told<B: Shape>(items: &[Item<B>]) -> Option<Refusal>
    ensures { result ≡ least_told items.now }
{
    items
        .iter()
        .fold(None, |least, item| lesser(least, told_of(item)))
}

/// The refusal with the least number with which a call of any session was given up.
pub(crate) fn least_given_up<B: Shape>(all: &[Handed<B>]) -> Option<Refusal>
    ensures { result ≡ least_given_up all.now }
{
    all.iter()
        .fold(None, |least, handed| lesser(least, handed.given_up))
}
