//! What the program says of a device on which one thing was changed: the line of its refusal, and the sentence that the
//! user reads.
use crate::device::{copied, device};
use crate::fault::RunFault;
use gx_class::Box2Class;
use gx_commands::{dump_over, run_over, verify_over};
use gx_disk::MemDisk;
use gx_restart::{Noted, open};
use std::alloc::Global;

/// What a command wrote of its replies, and to the user.
#[derive(Drop)]
struct Written {
    replies: Vec<u8>,
    sentence: Vec<u8>,
}

/// What is written as an empty script is run.
fn run(alloc: Global, bytes: &[u8], frames: usize) -> Result<Written, RunFault> {
    let mut reader = Noted::new([].as_slice());
    let mut writer = Noted::new(Vec::new(alloc));
    let mut faults = Noted::new(Vec::new(alloc));
    let disk = device(alloc, copied(alloc, bytes)?)?;
    let (_disk, _status) = run_over::<MemDisk, _, Box2Class, _, _, _>(
        alloc,
        disk,
        frames,
        &mut reader,
        &mut writer,
        &mut faults,
    );
    Ok(Written {
        replies: writer.inner,
        sentence: faults.inner,
    })
}

/// What a dump of the tree writes.
fn dump(alloc: Global, bytes: &[u8], frames: usize) -> Result<Written, RunFault> {
    let mut writer = Noted::new(Vec::new(alloc));
    let mut faults = Noted::new(Vec::new(alloc));
    let disk = device(alloc, copied(alloc, bytes)?)?;
    let (_disk, _status) = dump_over::<MemDisk, _, Box2Class, _, _>(
        alloc,
        disk,
        frames,
        &mut writer,
        &mut faults,
    );
    Ok(Written {
        replies: writer.inner,
        sentence: faults.inner,
    })
}

/// What is written as the device is verified.
fn verify(alloc: Global, bytes: &[u8], frames: usize) -> Result<Written, RunFault> {
    let mut writer = Noted::new(Vec::new(alloc));
    let mut faults = Noted::new(Vec::new(alloc));
    let mut disk = device(alloc, copied(alloc, bytes)?)?;
    let _status = verify_over::<MemDisk, Box2Class, _, _>(
        alloc,
        &mut disk,
        frames,
        &mut writer,
        &mut faults,
    );
    Ok(Written {
        replies: writer.inner,
        sentence: faults.inner,
    })
}

impl Written {
    /// Whether it is this line, with the same sentence for the user as another.
    fn is(&self, line: &str, other: &Written) -> bool {
        self.replies.as_slice() == line.as_bytes()
            && self.sentence.as_slice() == other.sentence.as_slice()
    }
}

/// The text of a refusal and of its sentence, if all commands that open the device print the same.
fn refused(
    alloc: Global,
    bytes: &[u8],
    frames: usize,
    text: &str,
) -> Result<Option<String>, RunFault> {
    let line = format!(in alloc; "{text}\n")?;
    let ran = run(alloc, bytes, frames)?;
    let dumped = dump(alloc, bytes, frames)?;
    let verified = verify(alloc, bytes, frames)?;
    let line = line.as_str();
    if !ran.is(line, &ran) || !dumped.is(line, &ran) || !verified.is(line, &ran) {
        return Ok(None);
    }
    match String::from_utf8(ran.sentence) {
        Ok(sentence) => {
            let sentence = sentence.as_str().trim_end();
            Ok(Some(format!(in alloc; "{text}; {sentence}")?))
        }
        Err(_) => Ok(None),
    }
}

/// Opens a device with these bytes, and returns the outcome: so many commits, or how it is refused, and what the user
/// reads then. Nothing if the commands that open it differ.
pub(crate) fn tell_opening(
    alloc: Global,
    bytes: &[u8],
    frames: usize,
) -> Result<Option<String>, RunFault> {
    match open::<MemDisk, Box2Class>(alloc, device(alloc, copied(alloc, bytes)?)?, frames) {
        Ok(engine) => {
            let commits = engine.commits();
            let said = format!(in alloc; "opened, commits {commits}")?;
            Ok(Some(said))
        }
        Err(refused_with) => {
            let (number, text) = (refused_with.why.number(), refused_with.why.text());
            let text = text.as_str();
            let line = format!(in alloc; "refused {number} {text}")?;
            refused(alloc, bytes, frames, line.as_str())
        }
    }
}
