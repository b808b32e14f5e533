//! The program: a call over a source and two sinks, which `main` makes with the real ones.
#![tactic(auto)]

mod top;

ghost use Rattle.std.specs.Prelude.{◌≡◌, ◌<◌, ℕ, List, All};
ghost use Rattle.bs_fault.specs.declared.fault.Fault.{Fault};
ghost use Rattle.cmm_front.specs.FileOf.{IsFileOf, HasFault};
ghost use Rattle.cmm_tree.specs.Tree.{FileTree};

pub use commands::{CallRefusal, Gate, OpenGate, call_of, report_of_run};
pub use top::cmmc;

/// Law: a text has one file at most, one fault at most that is reported, and not both.
pub fn one_file_or_one_fault()
    ensures files { (text : List ℕ) → All (λ b. b < 256) text → (file other : FileTree) →
        IsFileOf text file → IsFileOf text other → file ≡ other }
    ensures faults { (text : List ℕ) → All (λ b. b < 256) text → (fault other : Fault) →
        HasFault text fault → HasFault text other → fault ≡ other }
    ensures apart { (text : List ℕ) → All (λ b. b < 256) text → (file : FileTree) →
        (fault : Fault) → IsFileOf text file → HasFault text fault → ⊥ }
{}
