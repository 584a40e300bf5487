//! A page as the log's theory sees it, and a class as one of its instances.
ghost use Rattle.gx_node.specs.Reading.{format_of};
ghost use Rattle.gx_index_laws.specs.Classes.{known_of};
ghost use Rattle.gx_durable.specs.Classes.{class_of, reading_of};

use crate::Spelled;
use gx_class::{KeyClass, ReadKeys};
use gx_machine::Entry;
use gx_page::Page;
use gx_recovery::Meaning;
use std::marker::{Model, PhantomData};

/// A page that is seen as a node of a class, with the number that it has as its own and its image.
#[derive(Drop)]
pub struct NodePage<K: KeyClass> {
    page: Page,
    class: PhantomData<K>,
}

impl<K: KeyClass> Model for NodePage<K> {
    ghost use Rattle.gx_page.specs.Format.{image_of};
    ghost use Rattle.gx_node.specs.Reading.{format_of};
    ghost use Rattle.gx_index_laws.specs.Classes.{Page};
    ghost use Rattle.gx_durable.specs.Classes.{page_of};

    ghost Value = { Page K.Key };

    ghost view = { λ p. page_of (format_of K.KeyClass) (image_of p.page) };
}

/// Entries and pages of a class.
pub struct OfClass<K: ReadKeys> {
    class: PhantomData<K>,
}

impl<K: ReadKeys> Meaning for OfClass<K> {
    type Entry = Entry<K::Key>;

    type Page = NodePage<K>;

    ghost known = { λ limits. known_of (class_of K.Key.Shape K.is_proper limits) };
}

impl<K: ReadKeys> Spelled for OfClass<K> {
    ghost reading = { reading_of K.said (format_of K.KeyClass) };
}
