//! What answers the calls of a script.
use gx_machine::{Call, Reply};

/// Something that answers the calls of sessions.
pub trait Answers<B> {
    ghost use Rattle.std.specs.Prelude.{ℕ};
    ghost use Rattle.gx_machine.specs.declared.call.Call.{Call};
    ghost use Rattle.gx_machine.specs.declared.reply.Reply.{Reply};

    /// From the first state, this session's call may be given this reply and lead to the second.
    ghost answered: { Self → ℕ → Call B → Reply B → Self → Type 0 };

    /// Answers the call of a session, by its number.
    fn call(&mut self, session: u8, call: Call<B>) -> Reply<B>
        ensures { answered self.old session call result self.new };
}
