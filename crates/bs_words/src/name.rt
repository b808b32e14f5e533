//! A name in the text of a program.
ghost use Rattle.std.specs.Prelude.{◌≡◌, ◌↔◌, IsTrue};

use std::marker::Model;

/// A name. Contracts see it as the list of its bytes.
#[derive(Clone, Drop)]
pub struct Name {
    text: Vec<u8>,
}

impl Model for Name {
    ghost use Rattle.std.specs.Prelude.{ℕ, List};

    ghost Value = { List ℕ };

    ghost view = { λ name. name.text.items };
}

impl Name {
    /// The name with those bytes. It takes no memory.
    pub fn from_vec(text: Vec<u8>) -> Self
        ensures { result ≡ text.items }
    {
        Name { text }
    }

    /// The bytes of the name, as a vector. It takes no memory.
    pub fn into_vec(self) -> Vec<u8>
        ensures { result.items ≡ self }
    {
        let Name { text } = self;
        text
    }

    /// The bytes of the name.
    pub fn as_bytes(&self) -> &[u8]
        ensures { result.now ≡ self.now }
    {
        self.text.as_slice()
    }

    /// Whether both names have the same bytes.
    pub fn same(&self, other: &Name) -> bool
        ensures { IsTrue result ↔ (self.now ≡ other.now) }
    {
        self.text.as_slice() == other.text.as_slice()
    }
}
