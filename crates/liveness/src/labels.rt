//! The places of labels and of handlers.
ghost use Rattle.std.specs.Prelude.{◌≡◌, ◌<◌, ℕ, ◌^◌, suc, cond, length, map, IfOk};
ghost use Rattle.mach_ir.specs.Meaning.{has_label, is_handler_of};
ghost use Rattle.mach_ir.specs.Acts.{At};
ghost use Rattle.mach_ir.specs.Labels.{is_that_label, place_to};
ghost use Rattle.liveness.specs.Labels.{instruction_of_label, handler_in, AreLabelsOf};

use mach_ir::{Label, LabelPlaces, Mach, MachOp, Mark};
use std::alloc::{AllocError, Global};

/// The label of the handler that a mark is.
fn mark_handler(mark: &Mark) -> Option<Label>
    ensures { (l : ℕ) → is_handler_of l (MachOp.Mark mark.now) ≡ is_that_label result l }
{
    match mark {
        Mark::Exit { label: _, tries: _ } => None,
        Mark::If {
            test: _,
            otherwise: _,
        } => None,
        Mark::Else { label: _, end: _ } => None,
        Mark::Switch(_) => None,
        Mark::Case {
            indexes: _,
            label: _,
            end: _,
        } => None,
        Mark::Catch => None,
        Mark::With { label: _, end: _ } => None,
        Mark::Try { handler: _ } => None,
        Mark::Leave { handler: _, end: _ } => None,
        Mark::Handler { label } => Some(*label),
        Mark::End { label: _ } => None,
    }
}

fn own_handler(op: &MachOp) -> Option<Label>
    ensures { (l : ℕ) → is_handler_of l op.now ≡ is_that_label result l }
{
    match op {
        MachOp::Op(_) => None,
        MachOp::Mark(mark) => mark_handler(mark),
    }
}

/// The place after the mark of each label, and that of the mark of each handler. Of a label that
/// occurs twice it is the first; of any other that after the last instruction.
#[derive(Drop)]
pub struct InstructionLabels {
    places: LabelPlaces,
    handlers: LabelPlaces,
}

impl InstructionLabels {
    /// The table of a function. The only error is want of memory.
    pub fn of_function(alloc: Global, mach: &Mach) -> Result<InstructionLabels, AllocError>
        requires { length mach.now.code < 2 ^ 32 }
        ensures { IfOk result (AreLabelsOf mach.now) }
    {
        let code = mach.code.as_slice();
        let end = code.len() as u32;
        let mut labels = InstructionLabels {
            places: LabelPlaces::new(alloc, end),
            handlers: LabelPlaces::new(alloc, end),
        };
        let mut place = end;
        while place > 0 {
            place -= 1;
            labels.put(&code[place as usize].op, place)?;
        }
        Ok(labels)
    }

    /// Enters the labels of the instruction at the place, if it has one.
    fn put(&mut self, op: &MachOp, place: u32) -> Result<(), AllocError>
        requires { suc place < 2 ^ 32 }
        ensures places { IfOk result (λ _. (l : ℕ) → instruction_of_label self.new l ≡
            cond (has_label l op.now) (suc place) (instruction_of_label self.old l)) }
        ensures handlers { IfOk result (λ _. (l : ℕ) → handler_in self.new l ≡
            cond (is_handler_of l op.now) place (handler_in self.old l)) }
    {
        if let Some(label) = op.own_label() {
            self.places.put(label, place + 1)?;
        }
        if let Some(label) = own_handler(op) {
            self.handlers.put(label, place)?;
        }
        Ok(())
    }

    /// The place after the label.
    pub fn place_of(&self, label: Label) -> u32
        ensures { result ≡ instruction_of_label self.now label }
    {
        self.places.place_of(label)
    }

    /// The places after these labels, in their order. The only error is want of memory.
    pub fn places_of(&self, alloc: Global, among: &[Label]) -> Result<Vec<u32>, AllocError>
        ensures { IfOk result (λ places. (p : ℕ) →
            places.items ≡ map (place_to (instruction_of_label self.now) p) (map At among.now)) }
    {
        self.places.places_of(alloc, among)
    }

    /// The place of the handler.
    pub fn handler_of(&self, label: Label) -> u32
        ensures { result ≡ handler_in self.now label }
    {
        self.handlers.place_of(label)
    }
}
