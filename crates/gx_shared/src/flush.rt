//! The rounds of a flusher: events that belong to no session.
ghost use Rattle.std.specs.Prelude.{◌≡◌, ◌<◌};
ghost use Rattle.gx_shared.specs.Sharing.{flusher_event};

use gx_events::Event;

/// A part of a flusher's round.
#[derive(Clone, Copy, Debug, PartialEq, Eq)]
pub(crate) enum Part {
    /// The checkpoint's next step.
    Checkpoint,
    /// The log's next step.
    Log,
    /// The write of a page that may be written.
    Page,
    /// The sweep of the round's leaf.
    Leaf,
}

/// The parts of a round, in their order.
pub(crate) const ROUND: [Part; 4] = [Part::Checkpoint, Part::Log, Part::Page, Part::Leaf];

/// The event of a part in a round, if so many pages are in use and this one may be written. The part that writes a page
/// has no event if no page may be written. Leaves are swept in turn, one page a round.
pub(crate) fn flusher_event<B>(
    part: Part,
    round: u64,
    used: u32,
    dirty: Option<u32>,
) -> Option<Event<B>>
    requires { 0 < used }
    ensures { result ≡ flusher_event part round used dirty }
{
    match part {
        Part::Checkpoint => Some(Event::CheckpointStep),
        Part::Log => Some(Event::LogStep),
        Part::Page => match dirty {
            Some(page) => Some(Event::WritePage(page)),
            None => None,
        },
        Part::Leaf => Some(Event::Sweep(1 + (round % u64::from(used)) as u32)),
    }
}
