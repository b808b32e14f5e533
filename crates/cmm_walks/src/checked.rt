//! Files that are checked whole.
ghost use Rattle.std.specs.Prelude.{◌≡◌, ℕ, IfOk, IfErr};
ghost use Rattle.cmm_tree.specs.View.{file_view};
ghost use Rattle.walk_tables.specs.AddrLive.{IsLive};
ghost use Rattle.cmm_walks.specs.Refusal.{IsRefusal};

use crate::check::check_file;
use bs_fault::FrontError;
use cmm_types::Typed;
use std::alloc::Global;
use std::marker::Model;

/// A typed file in which no address is used after a frame point that it was bound before. Contracts see the
/// file.
#[derive(Drop)]
pub struct Checked {
    typed: Typed,
}

impl Model for Checked {
    ghost use Rattle.std.specs.Prelude.{ℕ};
    ghost use Rattle.std.specs.Coded.{codes};
    ghost use Rattle.cmm_tree.specs.View.{file_view};
    ghost use Rattle.cmm_tree.specs.contracts.file.File as row;
    ghost use Rattle.cmm_tree.specs.declared.file.File.{File};
    ghost use Rattle.walk_tables.specs.AddrLive.{IsLive};

    ghost Value = { File };

    ghost coded = { Prim.hlevel (codes, row.the_row.coded) };

    ghost view = { λ checked. checked.typed };

    ghost invariant = { λ checked. (bound point used : ℕ) →
        ¬ IsLive (file_view checked.typed) bound point used };
}

impl Checked {
    /// The typed file.
    pub fn typed(&self) -> &Typed
        ensures { result.now ≡ self.now }
    {
        &self.typed
    }
}

/// Checks addresses at frame points.
///
/// # Errors
///
/// `Fault` exactly where an address is used after a frame point that it was bound before, with the first use, of its
/// frame points the first, and of its bindings the first; `OutOfMemory` where memory ran out.
pub fn check_addresses(alloc: Global, typed: Typed) -> Result<Checked, FrontError>
    ensures same { IfOk result (λ checked. checked ≡ typed) }
    ensures settled { IfOk result (λ _. (bound point used : ℕ) →
        ¬ IsLive (file_view typed) bound point used) }
    ensures fault { IfErr result (IsRefusal (file_view typed)) }
{
    check_file(alloc, typed.file())?;
    Ok(Checked { typed })
}
