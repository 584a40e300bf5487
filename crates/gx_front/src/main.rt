//! The program `gist`.
#![tactic(auto)]

mod program;
mod storms;
#[cfg(test)]
mod tests;

use gx_commands::{Noted, Opener};
pub use program::gist;
use std::process::ExitCode;

fn main(rt: HostRuntime) -> ExitCode {
    let mut input = Noted::new(rt.stdin());
    let mut output = Noted::new(rt.stdout());
    let mut faults = Noted::new(rt.stderr());
    let status = match gx_words::given(&mut gx_words::Source::new(&rt), rt.alloc()) {
        Ok(given) => gist(
            &mut Opener::new(&rt),
            &rt,
            rt.alloc(),
            Ok(given.as_slice()),
            &mut input,
            &mut output,
            &mut faults,
        ),
        Err(fault) => gist::<_, _, String, _, _, _>(
            &mut Opener::new(&rt),
            &rt,
            rt.alloc(),
            Err(fault),
            &mut input,
            &mut output,
            &mut faults,
        ),
    };
    ExitCode::from(status)
}
