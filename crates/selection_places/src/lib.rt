//! What holds of the registers of the Mach functions that selection makes: a number identifies a register, fixed places
//! are apart, and an allocation writes a register of its own.
//!
//! The crate holds laws alone.
//!
//! Registers of a tree are sets with a role, numbered in ranges, and not a table from numbers to registers:
//! so these laws are short inductions over one walk of the code. Where a seat is live follows from the code
//! ahead alone, up to the first instruction that is not pure; so that seats are apart needs no graph.
#![tactic(auto)]

ghost use Rattle.std.specs.Prelude.{ℕ, ◌+◌, ◌-◌, ◌*◌, ◌<◌, List, length, Option};
ghost use Rattle.bs_fault.specs.Reported.{Faultless};
ghost use Rattle.cmm_tree.specs.Measures.{values_in, all_tries};
ghost use Rattle.cmm_tree.specs.Symbols.{DefinedSymbol};
ghost use Rattle.cmm_tree.specs.Tree.{FunctionTree};
ghost use Rattle.cmm_types.specs.Gathered.{function_faults};
ghost use Rattle.mach_ir.specs.Sizes.{OpenAtMost};
ghost use Rattle.selection_rules.specs.Select.{selected};
ghost use Rattle.selection_laws.specs.Fits.{FunctionFits};

/// Law: of a function without faults whose tokens cover its values, at most two registers for each token have
/// an open place, where a try takes a token less.
pub fn few_registers_are_open()
    ensures { (defined : List ℕ → Option DefinedSymbol) (f : FunctionTree) → FunctionFits f →
        Faultless (function_faults defined f) →
        12 + 6 * length f.params + (values_in f.body + 2 * all_tries f.body) < 2 * f.tokens →
        OpenAtMost (selected f) (2 * (f.tokens - all_tries f.body)) }
{}
