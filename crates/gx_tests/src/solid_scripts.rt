//! Scripts of boxes of space on the plain index.
use crate::asserts::{got, holds, same};
use crate::plain::gives_text;
use gx_geom::{Box2, Box3};
use gx_plain::{Call, Noted, PlainIndex, Query, run_plain};
use gx_script::{Line, parse};
use std::process::Abort;

/// A script and the text that it gives on a fresh index.
type Row = (&'static [u8], &'static [u8]);

static SCRIPTS: [Row; 6] = [
    // an entry is written in six corners
    (
        b"1 BEGIN\n1 INSERT 7 0 0 0 2 2 2\n1 COVERS 1 1 1 2 2 2\n1 COVERS 1 1 1 2 2 3\n1 OVERLAP 2 2 2 9 9 9\n",
        b"1 ok\n1 inserted\n1 found 1\n1 entry 7 0 0 0 2 2 2\n1 found 0\n1 found 1\n1 entry 7 0 0 0 2 2 2\n",
    ),
    // the third number is z, which a box may lie above
    (
        b"1 BEGIN\n1 INSERT 7 -1 2 -3 4 5 6\n1 OVERLAP 0 3 7 9 9 9\n1 WITHIN -1 2 -3 4 5 6\n1 EQUAL -1 2 -3 4 5 6\n",
        b"1 ok\n1 inserted\n1 found 0\n1 found 1\n1 entry 7 -1 2 -3 4 5 6\n1 found 1\n1 entry 7 -1 2 -3 4 5 6\n",
    ),
    // a line has just six
    (
        b"1 BEGIN\n1 INSERT 7 0 0 1 1\n1 INSERT 7 0 0 0 2 2\n1 OVERLAP 0 0 0 2 2 2 2\n1 DELETE 7\n",
        b"1 ok\nline 2 bad\nline 3 bad\nline 4 bad\nline 5 bad\n",
    ),
    // each corner is an i32
    (
        b"1 BEGIN\n1 INSERT 7 0 0 0 0 0 2147483648\n1 INSERT 7 0 0 -2147483649 0 0 0\n1 OVERLAP 0 0 0 0 0 99999999999999999999\n\
        1 INSERT 7 -2147483648 -2147483648 -2147483648 2147483647 2147483647 2147483647\n1 OVERLAP 0 0 0 0 0 0\n",
        b"1 ok\nline 2 bad\nline 3 bad\nline 4 bad\n\
        1 inserted\n1 found 1\n1 entry 7 -2147483648 -2147483648 -2147483648 2147483647 2147483647 2147483647\n",
    ),
    // corners may be reversed in x, y or z; no session is asked then
    (
        b"1 BEGIN\n1 INSERT 7 1 0 0 0 1 1\n1 INSERT 7 0 1 0 1 0 1\n1 INSERT 7 0 0 1 1 1 0\n9 OVERLAP 0 0 1 1 1 0\n",
        b"1 ok\n1 refused 6 bad box\n1 refused 6 bad box\n1 refused 6 bad box\n9 refused 6 bad box\n",
    ),
    // entries of one row come in the order of their corners
    (
        b"1 BEGIN\n1 INSERT 7 0 0 1 5 5 5\n1 INSERT 7 0 0 0 9 9 9\n1 INSERT 7 0 0 0 9 9 8\n1 OVERLAP 1 1 1 1 1 1\n",
        b"1 ok\n1 inserted\n1 inserted\n1 inserted\n1 found 3\n1 entry 7 0 0 0 9 9 8\n1 entry 7 0 0 0 9 9 9\n1 entry 7 0 0 1 5 5 5\n",
    ),
];

// Fails unless the script gives this text on a fresh index.
fn gives<R: Abort + AllocGlobal>(rt: &R, script: &[u8], text: &[u8]) {
    let mut index: PlainIndex<Box3> = got(rt, PlainIndex::new(rt.alloc()));
    let mut reader = script;
    let mut writer = Vec::new(rt.alloc());
    let result = run_plain(
        &mut Noted::new(&mut reader),
        &mut Noted::new(&mut writer),
        &mut index,
    );
    holds(rt, result == Ok(()));
    same(rt, &writer.as_slice(), &text);
}

#[test]
fn scripts_of_boxes_of_space(rt: HostRuntime) {
    for (script, text) in &SCRIPTS {
        gives(&rt, script, text);
    }
}

#[test]
fn boxes_of_the_plane_have_four_corners(rt: HostRuntime) {
    gives_text(
        &rt,
        b"1 BEGIN\n1 INSERT 7 0 0 0 2 2 2\n1 OVERLAP 0 0 0 2 2 2\n1 OVERLAP 0 0 2\n",
        b"1 ok\nline 2 bad\nline 3 bad\nline 4 bad\n",
    );
}

#[test]
fn a_line_is_read_by_itself(rt: HostRuntime) {
    holds(&rt, parse::<Box2>(b" \t\r") == Line::Blank);
    holds(&rt, parse::<Box2>(b"2 ABORT") == Line::Asks(2, Call::Abort));
    holds(
        &rt,
        parse::<Box2>(b"300 EQUAL 1 0 0 0") == Line::Reversed(300),
    );
    holds(&rt, parse::<Box2>(b"2 ABORT\n") == Line::Bad);
}

#[test]
fn one_line_is_read_by_the_class_of_its_keys(rt: HostRuntime) {
    let bytes = b"3 OVERLAP 1 2 1 2".as_slice();
    let asks = Line::Asks(3, Call::Search(Query::Overlap(Box2::point(1, 2))));
    holds(&rt, parse(bytes) == asks);
    holds(&rt, parse::<Box3>(bytes) == Line::Bad);
}
