//! The readings of both classes.
use gx_class::{Box2Class, IntervalClass};
use gx_durable::class_laws::{bytes_are_read, what_stands_is_legal};

#[test]
fn boxes_are_read() {
    bytes_are_read::<Box2Class>();
    what_stands_is_legal::<Box2Class>();
}

#[test]
fn intervals_are_read() {
    bytes_are_read::<IntervalClass>();
    what_stands_is_legal::<IntervalClass>();
}
