//! Tests of the arguments of a process.
use gx_words::{Source, given};
use std::env::FillError;
use std::process::Abort;
use std::rt::Env;

// The arguments that a process was started with.
#[derive(Clone, Copy)]
struct Started(&'static [&'static str]);

impl Env for Started {
    fn arg(&self, place: usize, room: &mut [u8]) -> Result<usize, FillError> {
        let word = self.0.get(place).ok_or(FillError::NotPresent)?.as_bytes();
        if room.len() < word.len() {
            return Err(FillError::TooLong);
        }
        room[..word.len()].copy_from_slice(word);
        Ok(word.len())
    }

    fn var(&self, _name: &str, _room: &mut [u8]) -> Result<usize, FillError> {
        Err(FillError::NotPresent)
    }

    fn var_at(&self, _place: usize, _room: &mut [u8]) -> Result<usize, FillError> {
        Err(FillError::NotPresent)
    }
}

const EXACT: &str = "0123456789012345678901234567890123456789012345678901234567890123";

const LONGER: &str =
    "01234567890123456789012345678901234567890123456789012345678901234567890123456789012345678901234567890123456789012345678901234567890";

const STARTS: [&[&str]; 3] = [
    &[],
    &["gist", "", EXACT, LONGER, "k\u{fc}rzer", "--", "7"],
    &["gist", LONGER],
];

// Each argument is read whole and in its place: none, an empty one, one as long as the first buffer, and longer ones.
#[test]
fn words_are_given_whole(rt: HostRuntime) {
    for words in STARTS {
        match given(&mut Source::new(Started(words)), rt.alloc()) {
            Ok(all) => {
                assert!(rt; all.len() == words.len());
                for (word, wanted) in all.as_slice().iter().zip(words) {
                    assert!(rt; word.as_str() == *wanted);
                }
            }
            Err(_) => assert!(rt; false),
        }
    }
}
