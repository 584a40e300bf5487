//! Replies compared, and printed in words.
use gx_geom::Shape;
use gx_machine::Reply;

/// What kind of reply it is, in a word.
pub(crate) fn word<B>(reply: &Reply<B>) -> &'static str {
    match reply {
        Reply::Ok => "ok",
        Reply::Inserted => "inserted",
        Reply::Deleted => "deleted",
        Reply::Found(_) => "found",
        Reply::Committed(_) => "committed",
        Reply::Aborted => "aborted",
        Reply::Refused(_) => "refused",
    }
}

/// Whether two replies are the same.
pub(crate) fn are_same<B: Shape>(one: &Reply<B>, other: &Reply<B>) -> bool {
    match (one, other) {
        (Reply::Found(found), Reply::Found(wanted)) => found.as_slice() == wanted.as_slice(),
        (Reply::Committed(number), Reply::Committed(wanted)) => number == wanted,
        (Reply::Refused(why), Reply::Refused(wanted)) => why == wanted,
        _ => word(one) == word(other),
    }
}
