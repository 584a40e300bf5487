//! An index whose replies are watched for faults.
ghost use Rattle.std.specs.Prelude.{◌≡◌, false};
ghost use Rattle.gx_commands.specs.Watching.{Watches, tells_fault};

use gx_geom::Refusal;
use gx_machine::{Call, Reply};
use gx_script::Answers;

/// What answers the calls of a script, and whether a reply has reported a fault.
#[derive(Drop)]
pub struct Watched<I> {
    /// What answers.
    pub index: I,
    /// Whether a reply was refused with `Device`, `Failed` or `Damaged`.
    pub met: bool,
}

impl<I> Watched<I> {
    /// No reply was seen yet.
    pub fn new(index: I) -> Self
        ensures { result ≡ record { index = index; met = false } }
    {
        Watched { index, met: false }
    }
}

// Whether a reply says that the device failed, or had failed before, or that what it holds can't be read.
fn tells_fault<B>(reply: &Reply<B>) -> bool
    ensures { result ≡ tells_fault reply.now }
{
    matches!(
        reply,
        Reply::Refused(Refusal::Device | Refusal::Failed | Refusal::Damaged)
    )
}

impl<B, I: Answers<B>> Answers<B> for Watched<I> {
    ghost use Rattle.gx_commands.specs.Watching.{Watches};

    ghost answered = { Watches I.answered };

    fn call(&mut self, session: u8, call: Call<B>) -> Reply<B>
        ensures { Watches I.answered self.old session call result self.new }
    {
        let reply = self.index.call(session, call);
        if tells_fault(&reply) {
            self.met = true;
        }
        reply
    }
}
