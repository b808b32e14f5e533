//! The names in scope.
ghost use Rattle.std.specs.Prelude.{◌≡◌, ◌-◌, length, [], ◌∷◌, drop, map, reverse, OnOk, OnErr};
ghost use Rattle.cmm_types.specs.Entries.{scoped_view};
ghost use Rattle.std.specs.Option.{option_map};
ghost use Rattle.cmm_types.specs.Types.{binding_of};
ghost use Rattle.cmm_types.specs.Scopes.{scoped, meaning_of};

use bs_words::{Name, Ty};
use std::alloc::{AllocError, Global};
use std::marker::Model;

/// What a name in scope stands for: a value of this type, which an assignment may change or not.
#[derive(Clone, Copy)]
pub struct Meaning {
    /// The type of its value.
    pub ty: Ty,
    /// Whether an assignment may change it.
    pub mutable: bool,
}

#[derive(Drop)]
struct Entry {
    name: Name,
    meaning: Meaning,
}

/// The names in scope. Contracts see them as a list, the innermost first.
#[derive(Drop)]
pub struct Names {
    entries: Vec<Entry>,
}

impl Model for Names {
    ghost use Rattle.std.specs.Prelude.{List, map, reverse};
    ghost use Rattle.cmm_types.specs.Types.{Scoped};
    ghost use Rattle.cmm_types.specs.Entries.{scoped_view};

    ghost Value = { List Scoped };

    ghost view = { λ names. map scoped_view (reverse names.entries.items) };
}

/// What the last of the entries says that has the name.
fn innermost(entries: &[Entry], name: &Name) -> Option<Meaning>
    ensures { result
        ≡ option_map meaning_of (binding_of (map scoped_view (reverse entries.now)) name.now) }
{
    let mut left = entries.len();
    while left > 0 {
        left -= 1;
        let entry = &entries[left];
        if entry.name.as_bytes() == name.as_bytes() {
            return Some(entry.meaning);
        }
    }
    None
}

impl Names {
    /// No names. It takes no memory.
    pub fn new(alloc: Global) -> Self
        ensures { result ≡ [] }
    {
        Names {
            entries: Vec::new(alloc),
        }
    }

    /// The number of bindings in scope, hidden ones counted.
    pub fn len(&self) -> usize
        ensures { result ≡ length self.now }
    {
        self.entries.len()
    }

    /// Binds the name. After want of memory the names are as before.
    pub fn bind(&mut self, alloc: Global, name: &Name, meaning: Meaning) -> Result<(), AllocError>
        ensures ok { OnOk result (self.new ≡ scoped name.now meaning ∷ self.old) }
        ensures err { OnErr result (self.new ≡ self.old) }
    {
        let name = Name::from_vec(Vec::from_slice(alloc, name.as_bytes())?);
        self.entries.push(Entry { name, meaning })?;
        Ok(())
    }

    /// Leaves scopes until so many bindings are left, if there are more.
    pub fn leave(&mut self, left: usize)
        ensures { self.new ≡ drop (length self.old - left) self.old }
    {
        self.entries.truncate(left);
    }

    /// The innermost binding of the name.
    pub fn find(&self, name: &Name) -> Option<Meaning>
        ensures { result ≡ option_map meaning_of (binding_of self.now name.now) }
    {
        innermost(self.entries.as_slice(), name)
    }
}
