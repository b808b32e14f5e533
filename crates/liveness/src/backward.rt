//! Items that are found from the last one to the first.
ghost use Rattle.std.specs.Prelude.{◌≡◌, ◌++◌, ◌∷◌, [], drop, slice_get, IfOk};

use std::alloc::{AllocError, Global};
use std::marker::Model;

/// Items of which the last ones are known. Contracts see them in their order.
#[derive(Drop)]
pub struct Backward<T> {
    /// From the last item to the first.
    items: Vec<T>,
}

impl<T> Model for Backward<T> {
    ghost use Rattle.std.specs.Prelude.{List, reverse};

    ghost Value = { List T };

    ghost view = { λ backward. reverse backward.items.items };
}

impl<T: Drop> Backward<T> {
    /// No items. It takes no memory.
    pub fn new(alloc: Global) -> Self
        ensures { result ≡ [] }
    {
        Backward {
            items: Vec::new(alloc),
        }
    }

    /// No items, with room for so many. The only error is want of memory.
    pub fn with_capacity(alloc: Global, count: usize) -> Result<Self, AllocError>
        ensures { IfOk result (λ made. made ≡ []) }
    {
        let items = Vec::with_capacity(alloc, count)?;
        Ok(Backward { items })
    }

    /// Puts an item before the others. Where memory is used up nothing has changed.
    pub fn push(&mut self, item: T) -> Result<(), AllocError>
        ensures { IfOk result (λ _. self.new ≡ item ∷ self.old) }
    {
        self.items.push(item)?;
        Ok(())
    }

    /// Puts these items before the others, in their order. The only error is want of memory.
    pub fn push_all(&mut self, items: Vec<T>) -> Result<(), AllocError>
        ensures { IfOk result (λ _. self.new ≡ items.items ++ self.old) }
    {
        let mut left = items;
        while let Some(item) = left.pop() {
            self.push(item)?;
        }
        Ok(())
    }

    /// The items, in order. It takes no memory.
    pub fn into_vec(self) -> Vec<T>
        ensures { result.items ≡ self }
    {
        let Backward { mut items } = self;
        items.reverse();
        items
    }
}

impl Backward<u32> {
    /// Takes the first item away, if there is one.
    pub fn pop(&mut self)
        ensures { self.new ≡ drop 1 self.old }
    {
        let _first = self.items.pop();
    }

    /// The first item, if there is one.
    pub fn first(&self) -> Option<u32>
        ensures { result ≡ slice_get self.now 0 }
    {
        self.items.last().copied()
    }
}
