//! What is made is given back.
use crate::asserts::holds;
use gx_page::Page;
use std::alloc::Global;
use std::fs::{self, Files};

// The second word of a text, as a number.
fn second_number(text: &str) -> Option<u64> {
    text.split(' ').nth(1)?.parse::<u64>().ok()
}

// How many pages of 4,096 bytes the process has in memory; none if the system doesn't say.
fn resident<R: Files + AllocGlobal>(rt: &R) -> Option<u64> {
    match fs::read_to_string(rt, "/proc/self/statm") {
        Ok(text) => second_number(text.as_str()),
        Err(_) => None,
    }
}

// Makes a page with so many items of 20 bytes, and another one of its image. Returns whether both were made.
fn is_made(alloc: Global, number: u32, items: u32) -> bool {
    let Ok(mut page) = Page::fresh(alloc, 0, number) else {
        return false;
    };
    for _item in 0..items {
        let _fits = page.insert(0, &[7; 20]);
    }
    match Page::from_image(alloc, page.image()) {
        Ok(copy) => copy.number() == number,
        Err(_) => false,
    }
}

// Of 20,000 pages that were made and dropped, empty and full ones, half of them from images, none stays, and none is
// refused.
#[test]
fn pages_are_given_back(rt: HostRuntime) {
    let before = resident(&rt).expect(&rt, "how many are resident");
    for number in 1..10_000 {
        holds(&rt, is_made(rt.alloc(), number, number % 172));
    }
    let after = resident(&rt).expect(&rt, "how many are resident");
    assert!(rt;
        after < before.saturating_add(2_000),
        "{before} pages, then {after}"
    );
}
