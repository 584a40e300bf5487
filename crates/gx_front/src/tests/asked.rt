//! Tests of what arguments ask for, and of the statuses of those that ask for nothing.
use super::ends;
use gx_words::{AskedCommand, Dimensions, WordsFault, read};
use std::process::Abort;

// Arguments that ask for nothing the program knows, or for help.
const WRONG: [&[&str]; 38] = [
    &["gist"],
    &["gist", "plane"],
    &["gist", "PLAIN"],
    &["gist", "plain", "x"],
    &["gist", "plain", "--frames", "16"],
    &["gist", "plain", "--class", "2"],
    &["gist", "plain", "--class"],
    &["gist", "plain", "--class", "1", "--class", "1"],
    &["gist", "format", "f", "7", "4"],
    &["gist", "format", "f", "65537", "4"],
    &["gist", "format", "f", "8", "3"],
    &["gist", "format", "f", "8", "101"],
    &["gist", "format", "f", "8"],
    &["gist", "format", "8", "4"],
    &["gist", "format", "f", "8", "4", "--class", "2"],
    &["gist", "format", "f", "8", "4", "--class", "03"],
    &["gist", "run"],
    &["gist", "run", "f", "--frames", "15"],
    &["gist", "run", "f", "--frames", "4097"],
    &["gist", "run", "f", "16"],
    &["gist", "run", "f", "--class", "3"],
    &["gist", "dump"],
    &["gist", "dump", "f", "g"],
    &["gist", "dump", "f", "--frames", "64"],
    &["gist", "verify"],
    &["gist", "verify", "f", "--frames", "64"],
    &["gist", "migrate"],
    &["gist", "migrate", "f"],
    &["gist", "migrate", "f", "g", "h"],
    &["gist", "migrate", "f", "g", "--frames", "15"],
    &["gist", "storm", "1", "9", "200"],
    &["gist", "storm", "1", "4", "2001"],
    &["gist", "storm", "4294967296", "4", "200"],
    &["gist", "--help"],
    &["gist", "help"],
    &["gist", "plain", "-h"],
    &["gist", "help", "run"],
    &[],
];

// Arguments that ask for something, and what they ask for.
const RIGHT: [(&[&str], AskedCommand); 14] = [
    (
        &["gist", "plain"],
        AskedCommand::Plain {
            dimensions: Dimensions::Two,
        },
    ),
    (
        &["gist", "plain", "--class", "1"],
        AskedCommand::Plain {
            dimensions: Dimensions::Two,
        },
    ),
    (
        &["gist", "plain", "--class=3"],
        AskedCommand::Plain {
            dimensions: Dimensions::Three,
        },
    ),
    (
        &["gist", "format", "--class", "3", "f", "8", "100"],
        AskedCommand::Format {
            file: "f",
            pages: 8,
            most: 100,
            dimensions: Dimensions::Three,
        },
    ),
    (
        &["gist", "format", "f", "8", "100"],
        AskedCommand::Format {
            file: "f",
            pages: 8,
            most: 100,
            dimensions: Dimensions::Two,
        },
    ),
    (
        &["gist", "format", "a b", "65536", "+4"],
        AskedCommand::Format {
            file: "a b",
            pages: 65536,
            most: 4,
            dimensions: Dimensions::Two,
        },
    ),
    (
        &["gist", "run", "plain"],
        AskedCommand::Run {
            file: "plain",
            frames: 64,
        },
    ),
    (
        &["gist", "run", "--frames", "0016", "f"],
        AskedCommand::Run {
            file: "f",
            frames: 16,
        },
    ),
    (
        &["gist", "run", "--frames=4096", "--", "--frames"],
        AskedCommand::Run {
            file: "--frames",
            frames: 4096,
        },
    ),
    (&["gist", "dump", "f"], AskedCommand::Dump { file: "f" }),
    (&["gist", "verify", "f"], AskedCommand::Verify { file: "f" }),
    (
        &["gist", "migrate", "f", "g"],
        AskedCommand::Migrate {
            old: "f",
            new: "g",
            frames: 64,
        },
    ),
    (
        &["gist", "migrate", "--frames", "4096", "--", "f", "-g"],
        AskedCommand::Migrate {
            old: "f",
            new: "-g",
            frames: 4096,
        },
    ),
    (
        &["gist", "storm", "4294967295", "8", "2000"],
        AskedCommand::Storm {
            seed: 4294967295,
            sessions: 8,
            calls: 2000,
        },
    ),
];

#[test]
fn words_and_statuses(rt: HostRuntime) {
    for words in WRONG {
        ends(&rt, Ok(words), 2, b"\0", true);
    }
    ends(&rt, Ok(["gist", "plain"].as_slice()), 0, b"1 ok\n\0", false);
    ends(&rt, Err(WordsFault::NotText(2)), 2, b"\0", true);
    ends(
        &rt,
        Err(WordsFault::Memory),
        1,
        b"refused 10 memory\n\0",
        false,
    );
}

#[test]
fn what_words_ask_for(rt: HostRuntime) {
    for (words, wanted) in RIGHT {
        assert!(rt; matches!(read(rt.alloc(), words), Ok(asked) if asked == wanted));
    }
}
