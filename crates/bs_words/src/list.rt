//! A list that contracts see as a list.
ghost use Rattle.std.specs.Prelude.{◌≡◌, ◌↔◌, ◌<◌, length, [], IsTrue, slice_get, slice_index_or, option_copied};
ghost use Rattle.bs_words.specs.Contents.{contents};

use std::alloc::Global;
use std::ops::Index;

/// A list of items over a vector. Contracts see the items, first to last, as `contents`.
///
/// It has no `Model`, so that it can be inside a recursive type.
#[derive(Clone, Debug, Drop)]
pub struct List<T> {
    items: Vec<T>,
}

impl<T> List<T> {
    /// The empty list. It takes no memory.
    pub fn new(alloc: Global) -> Self
        ensures { contents result ≡ [] }
    {
        List {
            items: Vec::new(alloc),
        }
    }

    /// The list of the vector's items, in order. It takes no memory.
    pub fn from_vec(items: Vec<T>) -> Self
        ensures { contents result ≡ items.items }
    {
        List { items }
    }

    /// The vector of the list's items, in order. It takes no memory.
    pub fn into_vec(self) -> Vec<T>
        ensures { result.items ≡ contents self }
    {
        let List { items } = self;
        items
    }

    /// The items as a slice.
    pub fn as_slice(&self) -> &[T]
        ensures { result.now ≡ contents self.now }
    {
        self.items.as_slice()
    }

    /// The number of items.
    pub fn len(&self) -> usize
        ensures { result ≡ length (contents self.now) }
    {
        self.items.len()
    }

    /// Whether there is no item.
    pub fn is_empty(&self) -> bool
        ensures { IsTrue result ↔ (length (contents self.now) ≡ 0) }
    {
        self.items.len() == 0
    }

    /// The item at `index`, counted from 0, or `None` from the length on.
    pub fn get(&self, index: usize) -> Option<&T>
        ensures { option_copied result ≡ slice_get (contents self.now) index }
    {
        self.items.get(index)
    }
}

impl<T> Index<usize> for List<T> {
    type Output = T;

    ghost can_index = { λ list index. index < length (contents list) };

    ghost index_gives = { λ list index item. item ≡ slice_index_or (contents list) index item };

    fn index(&self, index: usize) -> &T
        requires { index < length (contents self.now) }
        ensures { result.now ≡ slice_index_or (contents self.now) index result.now }
    {
        &self.as_slice()[index]
    }
}
