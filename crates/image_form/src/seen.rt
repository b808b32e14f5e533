//! Which texts came before, so that each is found to be new or not.
ghost use Rattle.std.specs.Prelude.{◌≡◌, List, ℕ, [], ◌∷◌, ◌++◌, not, IfOk};
ghost use Rattle.image_form.specs.Seen.{has_text, HoldsTexts};

use std::alloc::{AllocError, Global};
use std::collections::BTreeSet;

/// Names, or rows by their bytes.
#[derive(Drop)]
pub struct Seen {
    texts: BTreeSet<Vec<u8>>,
}

impl Seen {
    /// None came before.
    pub fn new(alloc: Global) -> Self
        ensures { HoldsTexts result [] }
    {
        Seen {
            texts: BTreeSet::new(alloc),
        }
    }

    /// Adds the text, and answers whether it was new. The only error is want of memory.
    pub fn insert(&mut self, text: Vec<u8>) -> Result<bool, AllocError>
        ensures new { IfOk result (λ added.
            (texts : List (List ℕ))
            → HoldsTexts self.old texts
            → added ≡ not (has_text texts text.items)) }
        ensures holds { IfOk result (λ added.
            (texts : List (List ℕ))
            → HoldsTexts self.old texts
            → HoldsTexts self.new (texts ++ text.items ∷ [])) }
    {
        Ok(self.texts.insert(text)?)
    }
}
