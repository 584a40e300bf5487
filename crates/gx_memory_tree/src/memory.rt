//! Pages in memory.
ghost use Rattle.std.specs.Prelude.{◌≡◌, ◌<◌, ◌+◌, ◌-◌, ◌^◌, ◌⊎◌, ◌&&◌, true, false, map, length, ◌≤◌, ◌++◌, ◌∷◌, []};
ghost use Rattle.std.specs.Prelude.{vec_len, vec_capacity, Err, IfOk, IfErr};
ghost use Rattle.std.specs.List.{list_all};
ghost use Rattle.gx_node.specs.Reading.{format_of, is_node};
ghost use Rattle.gx_node.specs.Trees.{Used};
ghost use Rattle.gx_node.specs.Store.{node_at, node_of, numbered, tree_of};

use gx_class::KeyClass;
use gx_geom::Refusal;
use gx_node::is_node;
use gx_page::Page;
use gx_tree::{Edit, Pages, PagesMut};
use std::convert::Infallible;
use std::marker::{Model, PhantomData};

/// The pages of a tree in memory, page 1 first, and the free pages. Bringing a page can't fail, and taking one needs no
/// memory.
#[derive(Drop)]
pub struct MemoryPages<K: KeyClass> {
    pages: Vec<Page>,
    spare: Vec<Page>,
    counter: u64,
    room: u32,
    class: PhantomData<K>,
}

impl<K: KeyClass> Model for MemoryPages<K> {
    ghost use Rattle.std.specs.Prelude.{map, length, ◌+◌, ◌≤◌, ◌<◌, ◌^◌, ◌≡◌, true, vec_capacity};
    ghost use Rattle.std.specs.List.{list_all};
    ghost use Rattle.gx_node.specs.Reading.{format_of, is_node};
    ghost use Rattle.gx_node.specs.Store.{Store, node_of, numbered};

    ghost Value = { Store K.Key };

    ghost view = { λ m. record {
      nodes = map (node_of (format_of K.KeyClass)) m.pages.items;
      counter = m.counter;
      room = m.room;
    } };

    ghost invariant = { λ m. (length m.pages.items + length m.spare.items ≡ m.room) × (m.room < 2 ^ 32)
        × (m.room ≤ vec_capacity m.pages)
        × (list_all (λ page. is_node (format_of K.KeyClass) m.room page) m.pages.items ≡ true)
        × (numbered 1 m.pages.items ≡ true) };
}

/// Whether each page has its own number, page 1 first.
fn are_numbered(pages: &[Page]) -> bool
    ensures { result ≡ numbered 1 pages.now }
{
    for (at, page) in pages.iter().enumerate() {
        if page.number() as usize != at + 1 {
            return false;
        }
    }
    true
}

/// Whether each page is a node of the class.
fn are_nodes<K: KeyClass>(pages: &[Page], room: u32) -> bool
    ensures { result ≡ list_all (λ page. is_node (format_of K.KeyClass) room page) pages.now }
{
    pages.iter().all(|page| is_node::<K>(page, room))
}

/// Whether each page is a node of the class and has its own number.
fn are_pages<K: KeyClass>(pages: &[Page], room: u32) -> bool
    ensures { result ≡ (list_all (λ page. is_node (format_of K.KeyClass) room page) pages.now && numbered 1 pages.now) }
{
    are_nodes::<K>(pages, room) && are_numbered(pages)
}

/// Puts a page after the last, if there is room for one.
fn append(pages: &mut Vec<Page>, page: Page)
    requires { vec_len pages.old < vec_capacity pages.old }
    ensures items { pages.new.items ≡ pages.old.items ++ page ∷ [] }
    ensures capacity { vec_capacity pages.old ≤ vec_capacity pages.new }
{
    let _ = pages.push(page);
}

impl<K: KeyClass> MemoryPages<K> {
    /// These pages, page 1 first, with so many splits made, and others that can be taken, whatever they hold.
    ///
    /// Refused with `Damaged` if one of the first isn't a node of the class or has another number than its own, or
    /// there are more than 2^32 - 1 in all, and with `Memory`.
    pub fn new(mut pages: Vec<Page>, spare: Vec<Page>, counter: u64) -> Result<Self, Refusal>
        ensures pages { IfOk result (λ memory. memory ≡ record {
          nodes = map (node_of (format_of K.KeyClass)) pages.items;
          counter = counter;
          room = length pages.items + length spare.items;
        }) }
        ensures refused { IfErr result (λ why. (why ≡ Refusal.Memory) ⊎ (why ≡ Refusal.Damaged)) }
        ensures damaged { result ≡ Err Refusal.Damaged → length pages.items + length spare.items < 2 ^ 32
            → (list_all (λ page. is_node (format_of K.KeyClass) (length pages.items + length spare.items) page)
            pages.items && numbered 1 pages.items) ≡ false }
    {
        let Ok(room) = u32::try_from(pages.len() + spare.len()) else {
            return Err(Refusal::Damaged);
        };
        if !are_pages::<K>(pages.as_slice(), room) {
            return Err(Refusal::Damaged);
        }
        if pages.reserve(spare.len()).is_err() {
            return Err(Refusal::Memory);
        }
        Ok(MemoryPages {
            pages,
            spare,
            counter,
            room,
            class: PhantomData,
        })
    }
}

impl<K: KeyClass> Pages<K> for MemoryPages<K> {
    type Fault = Infallible;

    ghost store = { λ s. s };

    ghost held = { λ s p. Used (tree_of s) p };

    ghost steady = { λ s. Unit };

    ghost since = { λ was s q. node_at s.nodes q ≡ node_at was.nodes q };

    ghost asked = { λ old new asked. Unit };

    ghost why = { λ old new fault. ⊥ };

    ghost faults = { λ s. 0 };

    ghost fails = { λ fault. 0 };

    fn used(&self) -> u32 {
        self.pages.len() as u32
    }

    fn room(&self) -> u32 {
        self.room
    }

    fn counter(&self) -> u64 {
        self.counter
    }

    fn bring(&mut self, _pages: &[u32]) -> Result<(), Infallible> {
        Ok(())
    }

    fn page(&self, page: u32) -> &Page {
        &self.pages[page as usize - 1]
    }

    ghost asked_nothing = { λ a. tt };
}

impl<K: KeyClass> PagesMut<K> for MemoryPages<K> {
    ghost ready = { λ s. s.room - length s.nodes };

    ghost changing = { λ s p. Unit };

    fn prepare(&mut self, _changes: &[u32], _taken: u32) -> Result<(), Infallible> {
        Ok(())
    }

    fn change<E: Edit<K>>(&mut self, page: u32, edit: E) {
        let room = self.room;
        edit.apply(&mut self.pages[page as usize - 1], room);
    }

    fn take(&mut self, from: u32) {
        let number = self.pages.len() as u32 + 1;
        if let Some(mut page) = self.spare.pop() {
            page.copy_from(&self.pages[from as usize - 1]);
            page.set_number(number);
            append(&mut self.pages, page);
        }
    }

    fn count_split(&mut self) {
        self.counter += 1;
    }
}
