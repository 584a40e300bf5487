//! The stack of a look.
ghost use Rattle.std.specs.Prelude.{◌≡◌, ◌<◌, ◌==◌, ◌↔◌, ◌++◌, ◌∷◌, [], length, IfOk, IsSome, List, OnOk};
ghost use Rattle.std.specs.Option.{option_to_list};
ghost use Rattle.gx_node.specs.Reach as reach;

use crate::item::TraversalItem;
use smallvec::SmallVec;
use std::alloc::{AllocError, Global};
use std::marker::Model;

/// How many items a stack holds before it allocates. A look is moved with all of them, so they are few.
const INLINE_ITEMS: usize = 2;

/// The items that a look is to read, the next one last.
#[derive(Drop)]
pub(crate) struct Stack {
    items: SmallVec<TraversalItem, INLINE_ITEMS>,
}

impl Model for Stack {
    ghost use Rattle.gx_tree.specs.Looking as looking;

    ghost Value = { looking.Stack };

    ghost view = { λ s. record { items = s.items.items } };
}

impl Stack {
    /// A stack of one item. It takes no memory.
    pub(crate) fn of(alloc: Global, item: TraversalItem) -> Result<Self, AllocError>
        ensures { IfOk result (λ stack. stack.items ≡ item ∷ []) }
    {
        let mut items = SmallVec::new(alloc);
        items.push(item)?;
        Ok(Stack { items })
    }

    /// Whether nothing is left to read.
    pub(crate) fn is_empty(&self) -> bool
        ensures { result ≡ (length self.now.items == 0) }
    {
        self.items.is_empty()
    }

    /// The item that is read next.
    pub(crate) fn last(&self) -> TraversalItem
        requires { 0 < length self.now.items }
        ensures { (rest : List reach.TraversalItem) (item : reach.TraversalItem) → self.now.items ≡ rest ++ item ∷ []
            → result ≡ item }
    {
        self.items.as_slice()[self.items.len() - 1]
    }

    /// Pushes an item.
    pub(crate) fn push(&mut self, item: TraversalItem) -> Result<(), AllocError>
        ensures items { OnOk result (self.new.items ≡ self.old.items ++ item ∷ []) }
    {
        self.items.push(item)?;
        Ok(())
    }

    /// Pops the item on top.
    pub(crate) fn pop(&mut self) -> Option<TraversalItem>
        ensures items { self.old.items ≡ self.new.items ++ option_to_list result }
        ensures variant { IsSome result ↔ (0 < length self.old.items) }
    {
        self.items.pop()
    }
}
