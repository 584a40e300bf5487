//! How often each thing came.
use crate::fault::RunFault;
use crate::parts::{Part, print_parts};
use gx_events::{Event, Need, Outcome};

/// How often each thing came in a run.
#[derive(Clone, Copy, Default)]
pub(crate) struct Counts {
    pub(crate) events: u64,
    pub(crate) replies: u64,
    pub(crate) refused: u64,
    pub(crate) moves: u64,
    pub(crate) log_helps: u64,
    pub(crate) write_helps: u64,
    pub(crate) checkpoint_helps: u64,
    pub(crate) log_steps: u64,
    pub(crate) written: u64,
    pub(crate) checkpoint_steps: u64,
    pub(crate) swept: u64,
    pub(crate) commits: u64,
}

/// One more.
fn count(number: &mut u64) {
    *number = number.saturating_add(1);
}

impl Counts {
    /// Counts an event that did its work.
    fn count_work<B>(&mut self, event: &Event<B>) {
        match event {
            Event::Ask(_, _) => {}
            Event::Move(_) => count(&mut self.moves),
            Event::LogStep => count(&mut self.log_steps),
            Event::WritePage(_) => count(&mut self.written),
            Event::CheckpointStep => count(&mut self.checkpoint_steps),
            Event::Sweep(_) => count(&mut self.swept),
        }
    }

    /// Counts an event with its outcome.
    pub(crate) fn count<B>(&mut self, event: &Event<B>, outcome: &Outcome<B>) {
        count(&mut self.events);
        match outcome {
            Outcome::Replied(_) => count(&mut self.replies),
            Outcome::More => self.count_work(event),
            Outcome::Help(Need::Log) => count(&mut self.log_helps),
            Outcome::Help(Need::Write(_)) => count(&mut self.write_helps),
            Outcome::Help(Need::Checkpoint) => count(&mut self.checkpoint_helps),
            Outcome::Nothing => {}
            Outcome::Refused(_) => count(&mut self.refused),
        }
    }

    /// Prints each by its name.
    pub(crate) fn print<R: Print>(&self, rt: &R) -> Result<(), RunFault> {
        let named = [
            ("events", self.events),
            ("replies", self.replies),
            ("refused", self.refused),
            ("moves", self.moves),
            ("log helps", self.log_helps),
            ("write helps", self.write_helps),
            ("checkpoint helps", self.checkpoint_helps),
            ("log steps", self.log_steps),
            ("pages written", self.written),
            ("checkpoint steps", self.checkpoint_steps),
            ("sweeps", self.swept),
            ("commits", self.commits),
        ];
        for (name, number) in named.iter() {
            print_parts(
                rt,
                &[Part::Text(", "), Part::Text(name), Part::Number(*number)],
            )?;
        }
        Ok(())
    }
}
