//! Boxes of space, and an index of intervals.
use super::{Case, carries_out, done, refused};
use gx_class::IntervalClass;
use gx_disk::FileDisk;
use gx_format::format;
use std::fs;
use std::process::Abort;

const ASKS: &[u8] =
    b"1 BEGIN\n1 INSERT 7 0 0 0 2 2 2\n1 OVERLAP 2 2 2 9 9 9\n1 WITHIN 0 0 0 2 2 1\n1 INSERT 8 0 0 0 1 1 -1\n1 INSERT 9 0 0 1 1\n1 COMMIT\n";

const ANSWERS: &[u8] =
    b"1 ok\n1 inserted\n1 found 1\n1 entry 7 0 0 0 2 2 2\n1 found 0\n1 refused 6 bad box\nline 6 bad\n1 committed 1\n";

// A script of boxes of space gets the same replies in memory and on a file that was formatted for them; the file is
// then dumped and verified. No command on the file names the class.
#[test]
fn boxes_of_space(rt: HostRuntime) {
    let steps: [Case; 5] = [
        done(&["gist", "plain", "--class", "3"], ASKS, ANSWERS),
        done(
            &["gist", "format", "deep", "16", "4", "--class", "3"],
            b"",
            b"formatted pages 16 fanout 4\n",
        ),
        done(&["gist", "run", "deep"], ASKS, ANSWERS),
        done(
            &["gist", "dump", "deep"],
            b"",
            b"commits 1 used 2 counter 0\npage 1 level 1 nsn 0 right 0 count 1\nchild 2 0 0 0 2 2 2\npage 2 level 0 nsn 0 right 0 count 1\nentry 7 0 0 0 2 2 2 live\n",
        ),
        done(
            &["gist", "verify", "deep"],
            b"",
            b"ok commits 1 entries 1 used 2\n",
        ),
    ];
    for step in &steps {
        carries_out(&rt, step);
    }
    let _ = fs::remove_file(&rt, "deep");
}

const ON_A_FILE: [&[&str]; 3] = [
    &["gist", "run", "lines"],
    &["gist", "dump", "lines"],
    &["gist", "verify", "lines"],
];

// The program has no commands for an index of intervals: it is refused, and nothing is read.
#[test]
fn an_index_of_intervals_is_refused(rt: HostRuntime) {
    match FileDisk::create(&rt, "lines", 16_776) {
        Ok(mut disk) => {
            assert!(rt; format::<FileDisk, IntervalClass>(rt.alloc(), &mut disk, 16, 4).is_ok());
        }
        Err(_) => assert!(rt; false),
    }
    let line: &[u8] = b"refused 18 bad parameter\n";
    let told: &[u8] =
        b"gist: a number is out of its range, or the index has another kind of keys\n";
    for words in ON_A_FILE {
        carries_out(&rt, &refused(words, line, told));
    }
    let _ = fs::remove_file(&rt, "lines");
}
