//! The plain command: scripts from a reader to a writer: the status, the replies, and the messages.

use crate::asserts::holds;
use gx_commands::{Noted, run_script};
use gx_geom::Box2;
use std::alloc::Global;
use std::io::{self, ErrorKind, Read, Write};
use std::process::Abort;

// The status, the replies with zeros after them, and whether there was a message.
fn run(alloc: Global, script: &[u8]) -> (u8, [u8; 64], bool) {
    let mut replies = [0u8; 64];
    let mut told = [0u8; 1];
    let mut reader = Noted::new(script);
    let mut writer = Noted::new(replies.as_mut_slice());
    let mut faults = Noted::new(told.as_mut_slice());
    let status = run_script::<Box2, _, _, _>(alloc, &mut reader, &mut writer, &mut faults);
    (status, replies, told != [0])
}

#[test]
fn a_script(rt: HostRuntime) {
    let (status, replies, is_told) = run(
        rt.alloc(),
        b"1 BEGIN\n1 INSERT 3 0 0 1 1\n1 EQUAL 0 0 1 1\nx",
    );
    let text = b"1 ok\n1 inserted\n1 found 1\n1 entry 3 0 0 1 1\nline 4 bad\n\0".as_slice();
    holds(&rt, status == 0 && replies.starts_with(text) && !is_told);
}

// With ample memory a script is run; if memory is refused once, it is that or the refusal, and nothing else.
#[test]
fn refused_memory(rt: HostRuntime) {
    let (status, replies, is_told) = run(rt.alloc(), b"1 COMMIT\n");
    let ran = status == 0 && replies.starts_with(b"1 refused 1 no transaction\n\0");
    let lacked = status == 1 && replies.starts_with(b"refused 10 memory\n\0");
    holds(&rt, (ran || lacked) && !is_told);
}

// A reader or a writer that answers with errors of one kind.
#[derive(Drop)]
struct Fails(ErrorKind);

impl Read for Fails {
    fn read(&mut self, _buf: &mut [u8]) -> io::Result<usize> {
        Err(io::Error::from(self.0))
    }
}

impl Write for Fails {
    fn write(&mut self, _buf: &[u8]) -> io::Result<usize> {
        Err(io::Error::from(self.0))
    }

    fn flush(&mut self) -> io::Result<()> {
        Ok(())
    }
}

// A script from this reader to this writer is stopped, with this line as its message.
fn stops<T: Abort + AllocGlobal, R: Read + Drop, W: Write + Drop>(
    rt: &T,
    reader: R,
    writer: W,
    line: &[u8],
) {
    let mut told = [0u8; 64];
    let mut faults = Noted::new(told.as_mut_slice());
    let status = run_script::<Box2, _, _, _>(
        rt.alloc(),
        &mut Noted::new(reader),
        &mut Noted::new(writer),
        &mut faults,
    );
    holds(rt, status == 1 && told.starts_with(line));
}

// What stopped a script is reported in one line, unless the reader of its replies has left. If the replies' first bytes
// have no room, the line says no more than that.
#[test]
fn faults_are_told(rt: HostRuntime) {
    let script = b"1 BEGIN\n".as_slice();
    let mut room = [0u8; 3];
    stops(
        &rt,
        Fails(ErrorKind::IsADirectory),
        room.as_mut_slice(),
        b"gist: the script can't be read: is a directory\n\0",
    );
    stops(
        &rt,
        script,
        Fails(ErrorKind::StorageFull),
        b"gist: a reply can't be written: no space left on device\n\0",
    );
    stops(&rt, script, Fails(ErrorKind::BrokenPipe), b"\0");
    stops(
        &rt,
        script,
        room.as_mut_slice(),
        b"gist: a reply can't be written\n\0",
    );
}
