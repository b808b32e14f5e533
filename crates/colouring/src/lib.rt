//! Places for the registers of an interference graph (OCaml's `asmcomp/coloring.ml`).
//!
//! Registers get their places one after the other. First come those that reloading made, then those with so many neighbours that they may
//! be left with no colour, those that a slot would cost most before the others. Each takes the best colour
//! that no neighbour has, or else the slot of its origin.
#![tactic(auto)]

mod choosing;
mod counts;
mod merit;
mod nodes;
mod order;
mod tallies;

ghost use Rattle.std.specs.Prelude.{ℕ};
ghost use Rattle.mach_ir.specs.declared.graph.Graph.{Graph};
ghost use Rattle.colouring.specs.Chosen.{OrderIsOne, ColoursAreOne, OthersAreUnset};

pub use choosing::colour;

/// Law: the order in which the registers of a graph get their places is one.
pub fn an_order_is_one()
    ensures { (fresh : ℕ) (g : Graph) → OrderIsOne fresh g }
{}

/// Law: all colourings of a graph by its order have the same place for each number.
pub fn colours_are_one()
    ensures { (fresh : ℕ) (g : Graph) → ColoursAreOne fresh g }
{}

/// Law: in such a colouring a number that no register has is `Unset`.
pub fn others_are_unset()
    ensures { (fresh : ℕ) (g : Graph) → OthersAreUnset fresh g }
{}
