//! What a script is answered, line by line: by the plain index, and by an index whose device fails.
use crate::fault::RunFault;
use crate::ran::{End, Ran};
use gx_geom::{Box2, Refusal};
use gx_plain::PlainIndex;
use gx_script::{Noted, run};
use std::alloc::Global;

/// How a text answers a script.
#[derive(Clone, Copy, PartialEq, Eq)]
pub(crate) enum Answered {
    /// Each line as by the plain index.
    Whole,
    /// So up to a line, from 0 on, that the device refused; and each line after it is refused since it had failed.
    RefusedAt(usize),
    /// Otherwise.
    Otherwise,
}

/// The replies of the plain index to each line of a script.
pub(crate) fn replies_of(alloc: Global, script: &[u8]) -> Result<Vec<Vec<u8>>, RunFault> {
    let mut plain = PlainIndex::<Box2>::new(alloc)?;
    let mut all = Vec::new(alloc);
    for line in script.split_inclusive(|byte| *byte == b'\n') {
        let mut replies = Vec::new(alloc);
        run(
            &mut Noted::new(line),
            &mut Noted::new(&mut replies),
            &mut plain,
        )?;
        all.push(replies)?;
    }
    Ok(all)
}

// What follows a front of a text. `None` if that isn't its front.
fn behind<'a>(text: &'a [u8], front: &[u8]) -> Option<&'a [u8]> {
    if text.starts_with(front) {
        text.get(front.len()..)
    } else {
        None
    }
}

// What follows the refusal of a line, whose session has one digit.
fn behind_refusal<'a>(text: &'a [u8], line: &[u8], refusal: &[u8]) -> Option<&'a [u8]> {
    let session = line.get(..1)?;
    behind(behind(text, session)?, refusal)
}

// How far the lines of a text are as they should be.
#[derive(Clone, Copy)]
struct Told<'a> {
    rest: &'a [u8],
    refused: Option<usize>,
}

// Takes the reply of a line.
fn take_reply<'a>(told: Told<'a>, place: usize, line: &[u8], reply: &[u8]) -> Option<Told<'a>> {
    let Told { rest, refused } = told;
    if refused.is_some() {
        let rest = behind_refusal(rest, line, b" refused 12 failed\n")?;
        return Some(Told { rest, refused });
    }
    if let Some(rest) = behind(rest, reply) {
        return Some(Told { rest, refused });
    }
    let rest = behind_refusal(rest, line, b" refused 11 device\n")?;
    Some(Told {
        rest,
        refused: Some(place),
    })
}

/// How a text answers a script, of which these are the replies of the plain index.
pub(crate) fn how_answered(script: &[u8], replies: &[Vec<u8>], text: &[u8]) -> Answered {
    let mut told = Told {
        rest: text,
        refused: None,
    };
    let mut place: usize = 0;
    for line in script.split_inclusive(|byte| *byte == b'\n') {
        let reply = match replies.get(place) {
            Some(reply) => reply.as_slice(),
            None => return Answered::Otherwise,
        };
        told = match take_reply(told, place, line, reply) {
            Some(told) => told,
            None => return Answered::Otherwise,
        };
        place = place.saturating_add(1);
    }
    match told {
        Told {
            rest: [],
            refused: Some(place),
        } => Answered::RefusedAt(place),
        Told {
            rest: [],
            refused: None,
        } => Answered::Whole,
        _ => Answered::Otherwise,
    }
}

/// Whether a run ended as it may: the failed call is reported once, and all that is asked after it is refused.
pub(crate) fn is_told(script: &[u8], replies: &[Vec<u8>], ran: &Ran) -> bool {
    match ran.end {
        End::NotOpened(why) => why == Refusal::Device && ran.replies.is_empty(),
        End::Settled | End::NotSettled(Refusal::Device) => {
            how_answered(script, replies, &ran.replies) == Answered::Whole
        }
        End::NotSettled(Refusal::Failed) => matches!(
            how_answered(script, replies, &ran.replies),
            Answered::RefusedAt(_)
        ),
        End::NotSettled(_) => false,
    }
}

/// How many commits a text acknowledges.
pub(crate) fn acknowledged_in(replies: &[u8]) -> u64 {
    let mut count: u64 = 0;
    for line in replies.split(|byte| *byte == b'\n') {
        if line.get(1..12) == Some(b" committed ".as_slice()) {
            count = count.saturating_add(1);
        }
    }
    count
}
