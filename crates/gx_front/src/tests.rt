//! Tests of the program's arguments and statuses.

mod asked;
mod space;
mod words;

use super::*;
use gx_disk::FileDisk;
use gx_words::WordsFault;
use std::fs::{self, File, Files};
use std::process::Abort;
use std::sync::Wait;
use std::thread::Threads;

// With these arguments a script of one line ends with this status, writes this, and a text about the arguments or none.
fn ends<T: Abort + AllocGlobal + Files<File = File> + Threads + Wait + Sync>(
    rt: &T,
    words: Result<&[&str], WordsFault>,
    status: u8,
    replies: &[u8],
    is_told: bool,
) {
    let mut room = [0u8; 32];
    let mut text = [0u8; 1];
    let mut reader = Noted::new(b"1 BEGIN\n".as_slice());
    let mut writer = Noted::new(room.as_mut_slice());
    let mut faults = Noted::new(text.as_mut_slice());
    let mut opener = Opener::new(rt);
    let given = gist(
        &mut opener,
        rt,
        rt.alloc(),
        words,
        &mut reader,
        &mut writer,
        &mut faults,
    );
    assert!(rt; given == status && room.starts_with(replies) && is_told == (text != [0]));
}

#[test]
fn a_storm_is_sound(rt: HostRuntime) {
    ends(
        &rt,
        Ok(["gist", "storm", "1", "2", "20"].as_slice()),
        0,
        b"storm ok calls 40\n\0",
        false,
    );
}

// A file that can't be opened is named, and the script isn't read.
#[test]
fn no_file(rt: HostRuntime) {
    let none = b"refused 11 device\n\0";
    ends(
        &rt,
        Ok(["gist", "run", "no/file"].as_slice()),
        1,
        none,
        true,
    );
    ends(
        &rt,
        Ok(["gist", "format", "no/file", "8", "4"].as_slice()),
        1,
        none,
        true,
    );
    ends(
        &rt,
        Ok(["gist", "dump", "no/file"].as_slice()),
        1,
        none,
        true,
    );
}

// A call of the program, and all that it has to do: its status, and its whole text on both outputs.
#[derive(Clone, Copy)]
struct Case {
    words: &'static [&'static str],
    script: &'static [u8],
    status: u8,
    replies: &'static [u8],
    told: &'static [u8],
}

// A call that is done, and prints nothing on standard error.
const fn done(
    words: &'static [&'static str],
    script: &'static [u8],
    replies: &'static [u8],
) -> Case {
    Case {
        words,
        script,
        status: 0,
        replies,
        told: b"",
    }
}

// A call that is refused, which a line among the replies and one to the user report.
const fn refused(
    words: &'static [&'static str],
    replies: &'static [u8],
    told: &'static [u8],
) -> Case {
    Case {
        words,
        script: ALL,
        status: 1,
        replies,
        told,
    }
}

const ALL: &[u8] = b"1 BEGIN\n1 OVERLAP -2147483648 -2147483648 2147483647 2147483647\n";

fn carries_out<T: Abort + AllocGlobal + Files<File = File> + Threads + Wait + Sync>(
    rt: &T,
    case: &Case,
) {
    let mut reader = Noted::new(case.script);
    let mut writer = Noted::new(Vec::new(rt.alloc()));
    let mut faults = Noted::new(Vec::new(rt.alloc()));
    let mut opener = Opener::new(rt);
    let status = gist(
        &mut opener,
        rt,
        rt.alloc(),
        Ok(case.words),
        &mut reader,
        &mut writer,
        &mut faults,
    );
    assert_eq!(rt; status, case.status);
    assert!(rt; writer.inner.as_slice() == case.replies && faults.inner.as_slice() == case.told);
}

// The length of an existing file.
fn length_of<T: Abort + Files<File = File>>(rt: &T, file: &str) -> u64 {
    match fs::metadata(rt, file) {
        Ok(found) => found.len(),
        Err(_) => 0,
    }
}

const NO_DEVICE: &[u8] = b"refused 11 device\n";

// Two files with an index each: what was committed is found by later runs and dumps of that file, and of no other. Runs
// and dumps don't change a file's length.
#[test]
fn what_is_committed_is_in_the_file(rt: HostRuntime) {
    let steps = [
        done(
            &["gist", "format", "north", "16", "4"],
            b"",
            b"formatted pages 16 fanout 4\n",
        ),
        done(
            &["gist", "format", "south", "8", "100"],
            b"",
            b"formatted pages 8 fanout 100\n",
        ),
        done(
            &["gist", "run", "north"],
            b"1 BEGIN\n1 INSERT 7 0 0 10 10\n1 COMMIT\n1 BEGIN\n1 INSERT 8 5 5 6 6\n",
            b"1 ok\n1 inserted\n1 committed 1\n1 ok\n1 inserted\n",
        ),
        done(
            &["gist", "run", "north", "--frames", "16"],
            ALL,
            b"1 ok\n1 found 1\n1 entry 7 0 0 10 10\n",
        ),
        done(&["gist", "run", "south"], ALL, b"1 ok\n1 found 0\n"),
        done(
            &["gist", "dump", "north"],
            b"",
            b"commits 1 used 2 counter 0\npage 1 level 1 nsn 0 right 0 count 1\nchild 2 0 0 10 10\npage 2 level 0 nsn 0 right 0 count 2\nentry 7 0 0 10 10 live\nentry 8 5 5 6 6 marked\n",
        ),
        done(
            &["gist", "verify", "north"],
            b"",
            b"ok commits 1 entries 1 used 2\n",
        ),
        done(
            &["gist", "verify", "south"],
            b"",
            b"ok commits 0 entries 0 used 2\n",
        ),
        done(
            &["gist", "dump", "south"],
            b"",
            b"commits 0 used 2 counter 0\npage 1 level 1 nsn 0 right 0 count 1\nchild 2 0 0 0 0\npage 2 level 0 nsn 0 right 0 count 0\n",
        ),
    ];
    for step in &steps {
        carries_out(&rt, step);
    }
    assert!(rt; length_of(&rt, "north") == 512 * (16_648 + 8 * 16));
    assert!(rt; length_of(&rt, "south") == 512 * (16_648 + 8 * 8));
    let _ = fs::remove_file(&rt, "north");
    let _ = fs::remove_file(&rt, "south");
}

// A file that another opener has, one that doesn't exist, and three that hold no index: each is named, and none is
// created, extended or changed.
#[test]
fn files_that_hold_no_index(rt: HostRuntime) {
    carries_out(
        &rt,
        &done(
            &["gist", "format", "used", "8", "4"],
            b"",
            b"formatted pages 8 fanout 4\n",
        ),
    );
    let held = FileDisk::open(&rt, "used");
    let in_use: &[u8] = b"gist: used: another process has it in use\n";
    carries_out(&rt, &refused(&["gist", "run", "used"], NO_DEVICE, in_use));
    carries_out(&rt, &refused(&["gist", "dump", "used"], NO_DEVICE, in_use));
    carries_out(
        &rt,
        &refused(&["gist", "verify", "used"], NO_DEVICE, in_use),
    );
    carries_out(
        &rt,
        &refused(&["gist", "format", "used", "8", "4"], NO_DEVICE, in_use),
    );
    assert!(rt; held.is_ok());
    drop(held);
    carries_out(
        &rt,
        &done(&["gist", "run", "used"], ALL, b"1 ok\n1 found 0\n"),
    );
    let _ = fs::remove_file(&rt, "used");

    let absent: &[u8] = b"gist: absent: no such file or directory\n";
    carries_out(&rt, &refused(&["gist", "run", "absent"], NO_DEVICE, absent));
    carries_out(
        &rt,
        &refused(&["gist", "dump", "absent"], NO_DEVICE, absent),
    );
    assert!(rt; matches!(fs::exists(&rt, "absent"), Ok(false)));

    let _ = fs::write(&rt, "short", [0u8; 1000].as_slice());
    let small: &[u8] = b"gist: the file is shorter than any index, or was cut\n";
    carries_out(
        &rt,
        &refused(&["gist", "run", "short"], b"refused 17 too small\n", small),
    );
    carries_out(
        &rt,
        &refused(&["gist", "dump", "short"], b"refused 17 too small\n", small),
    );
    carries_out(
        &rt,
        &refused(
            &["gist", "verify", "short"],
            b"refused 17 too small\n",
            small,
        ),
    );
    assert!(rt; length_of(&rt, "short") == 1000);
    let _ = fs::remove_file(&rt, "short");

    drop(FileDisk::create(&rt, "zeros", 4232));
    let blank: &[u8] = b"gist: the device holds no index; it has to be formatted first\n";
    carries_out(
        &rt,
        &refused(
            &["gist", "run", "zeros"],
            b"refused 14 not formatted\n",
            blank,
        ),
    );
    carries_out(
        &rt,
        &refused(
            &["gist", "verify", "zeros"],
            b"refused 14 not formatted\n",
            blank,
        ),
    );
    assert!(rt; length_of(&rt, "zeros") == 512 * 4232);
    let _ = fs::remove_file(&rt, "zeros");
}
