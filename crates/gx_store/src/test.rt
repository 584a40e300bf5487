//! The test of pages as nodes.
ghost use Rattle.std.specs.Prelude.{◌≡◌};

use gx_class::KeyClass;
use gx_node::is_node;
use gx_page::Page;
use gx_pool::PageTest;
use std::marker::PhantomData;

/// The test that a page is a node of the class, on a device of so many pages.
#[derive(Drop)]
pub struct NodeTest<K: KeyClass> {
    pages: u32,
    class: PhantomData<K>,
}

impl<K: KeyClass> NodeTest<K> {
    /// The test, on a device of so many pages.
    pub fn new(pages: u32) -> NodeTest<K>
        ensures { result.pages ≡ pages }
    {
        NodeTest {
            pages,
            class: PhantomData,
        }
    }
}

impl<K: KeyClass> PageTest for NodeTest<K> {
    ghost use Rattle.gx_node.specs.Reading.{format_of, is_node};

    ghost passes = { λ test page. is_node (format_of K.KeyClass) test.pages page };

    fn passes(&self, page: &Page) -> bool {
        is_node::<K>(page, self.pages)
    }
}
