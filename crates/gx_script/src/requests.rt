//! What a line asks for.
ghost use Rattle.std.specs.Prelude.{◌≡◌, MatchOption, IfSome, FitsSigned, option_map};
ghost use Rattle.std.specs.Int.{w64};
ghost use Rattle.gx_script.specs.Corners.{grammar_of};
ghost use Rattle.gx_script.specs.Words.{words};
ghost use Rattle.gx_script.specs.Numbers.{number_of, corner_of};
ghost use Rattle.gx_script.specs.Requests.{command_of, first_word, key_words, entry_words};
ghost use Rattle.gx_script.specs.Requests.{with_arguments, alone, command_line, session_line, line_of};

use crate::command::Command;
use crate::numbers::{corner, number};
use crate::words::{next_word, trimmed};
use crate::{Corners, Line};
use arrayvec::ArrayVec;
use gx_machine::{Call, Entry, Query};

/// How many bytes a line may have.
const LINE_LIMIT: usize = 1024;

/// How many corners a key has at most.
const MOST: usize = 6;

/// What a line asks for. The line is given without its line feed, and may end in a carriage return.
pub fn parse<B: Corners>(line: &[u8]) -> Line<B>
    ensures { result ≡ line_of (grammar_of B.Corners) line.now }
{
    let body = trimmed(line);
    if body.len() > LINE_LIMIT {
        return Line::Bad;
    }
    if next_word(body).is_none() {
        return Line::Blank;
    }
    session(body)
}

fn session<B: Corners>(body: &[u8]) -> Line<B>
    ensures { result ≡ session_line (grammar_of B.Corners) (words body.now) }
{
    let Some((session, rest)) = next_number(body) else {
        return Line::Bad;
    };
    let Some((command, rest)) = next_command(rest) else {
        return Line::Bad;
    };
    asks(session, command, rest)
}

fn asks<B: Corners>(session: u64, command: Command, rest: &[u8]) -> Line<B>
    ensures { result ≡ command_line (grammar_of B.Corners) session command (words rest.now) }
{
    match command {
        Command::Begin => alone(session, Call::Begin, rest),
        Command::Insert => insert(session, rest),
        Command::Delete => delete(session, rest),
        Command::Overlap => overlap(session, rest),
        Command::Within => within(session, rest),
        Command::Equal => equal(session, rest),
        Command::Covers => covers(session, rest),
        Command::Commit => alone(session, Call::Commit, rest),
        Command::Abort => alone(session, Call::Abort, rest),
    }
}

fn alone<B: Corners>(session: u64, call: Call<B>, rest: &[u8]) -> Line<B>
    ensures { result ≡ alone session call (words rest.now) }
{
    match next_word(rest) {
        None => Line::Asks(session, call),
        Some(_) => Line::Bad,
    }
}

fn insert<B: Corners>(session: u64, rest: &[u8]) -> Line<B>
    ensures { result ≡ with_arguments session (λ e. Call.Insert e)
        (entry_words (grammar_of B.Corners) (words rest.now)) }
{
    match entry(rest) {
        None => Line::Bad,
        Some(None) => Line::Reversed(session),
        Some(Some(e)) => Line::Asks(session, Call::Insert(e)),
    }
}

fn delete<B: Corners>(session: u64, rest: &[u8]) -> Line<B>
    ensures { result ≡ with_arguments session (λ e. Call.Delete e)
        (entry_words (grammar_of B.Corners) (words rest.now)) }
{
    match entry(rest) {
        None => Line::Bad,
        Some(None) => Line::Reversed(session),
        Some(Some(e)) => Line::Asks(session, Call::Delete(e)),
    }
}

fn overlap<B: Corners>(session: u64, rest: &[u8]) -> Line<B>
    ensures { result ≡ with_arguments session (λ b. Call.Search (Query.Overlap b))
        (key_words (grammar_of B.Corners) (words rest.now)) }
{
    match key(rest) {
        None => Line::Bad,
        Some(None) => Line::Reversed(session),
        Some(Some(b)) => Line::Asks(session, Call::Search(Query::Overlap(b))),
    }
}

fn within<B: Corners>(session: u64, rest: &[u8]) -> Line<B>
    ensures { result ≡ with_arguments session (λ b. Call.Search (Query.Within b))
        (key_words (grammar_of B.Corners) (words rest.now)) }
{
    match key(rest) {
        None => Line::Bad,
        Some(None) => Line::Reversed(session),
        Some(Some(b)) => Line::Asks(session, Call::Search(Query::Within(b))),
    }
}

fn equal<B: Corners>(session: u64, rest: &[u8]) -> Line<B>
    ensures { result ≡ with_arguments session (λ b. Call.Search (Query.Equal b))
        (key_words (grammar_of B.Corners) (words rest.now)) }
{
    match key(rest) {
        None => Line::Bad,
        Some(None) => Line::Reversed(session),
        Some(Some(b)) => Line::Asks(session, Call::Search(Query::Equal(b))),
    }
}

fn covers<B: Corners>(session: u64, rest: &[u8]) -> Line<B>
    ensures { result ≡ with_arguments session (λ b. Call.Search (Query.Covers b))
        (key_words (grammar_of B.Corners) (words rest.now)) }
{
    match key(rest) {
        None => Line::Bad,
        Some(None) => Line::Reversed(session),
        Some(Some(b)) => Line::Asks(session, Call::Search(Query::Covers(b))),
    }
}

// a row and a key, and no other word; no entry if the corners are reversed
fn entry<B: Corners>(rest: &[u8]) -> Option<Option<Entry<B>>>
    ensures { result ≡ entry_words (grammar_of B.Corners) (words rest.now) }
{
    let (row, rest) = next_number(rest)?;
    match key(rest)? {
        None => Some(None),
        Some(key) => Some(Some(Entry { row, key })),
    }
}

// the corners of a key and no other word; no key if they are reversed
fn key<B: Corners>(rest: &[u8]) -> Option<Option<B>>
    ensures { result ≡ key_words (grammar_of B.Corners) (words rest.now) }
{
    let mut corners = ArrayVec::<i64, MOST>::new();
    let mut rest = rest;
    for _i in 0..B::COUNT {
        let (corner, more) = next_corner(rest)?;
        corners.push(corner);
        rest = more;
    }
    if next_word(rest).is_some() || !B::fits(corners.as_slice()) {
        return None;
    }
    Some(B::make(corners.as_slice()).ok())
}

fn next_number(bytes: &[u8]) -> Option<(u64, &[u8])>
    ensures { MatchOption result (first_word number_of (words bytes.now) ≡ None)
        (λ p. first_word number_of (words bytes.now) ≡ Some (p.0, words p.1.now)) }
{
    let (word, rest) = next_word(bytes)?;
    Some((number(word)?, rest))
}

fn next_corner(bytes: &[u8]) -> Option<(i64, &[u8])>
    ensures fits { IfSome result (λ p. FitsSigned w64 p.0) }
    ensures words { MatchOption result (first_word corner_of (words bytes.now) ≡ None)
        (λ p. first_word corner_of (words bytes.now) ≡ Some (p.0, words p.1.now)) }
{
    let (first, rest) = next_word(bytes)?;
    Some((corner(first)?, rest))
}

fn next_command(bytes: &[u8]) -> Option<(Command, &[u8])>
    ensures { MatchOption result (first_word command_of (words bytes.now) ≡ None)
        (λ p. first_word command_of (words bytes.now) ≡ Some (p.0, words p.1.now)) }
{
    let (word, rest) = next_word(bytes)?;
    Some((Command::of(word)?, rest))
}
