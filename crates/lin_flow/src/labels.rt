//! The places of labels.
ghost use Rattle.std.specs.Prelude.{◌≡◌, ◌<◌, ℕ, ◌^◌, cond, length, map, IfOk};
ghost use Rattle.lin_ir.specs.Meaning.{has_label};
ghost use Rattle.mach_ir.specs.Acts.{At};
ghost use Rattle.mach_ir.specs.Labels.{place_to};
ghost use Rattle.lin_flow.specs.Labels.{line_of_label, AreLabelsOf};

use lin_ir::{Lin, LinOp};
use mach_ir::{Label, LabelPlaces};
use std::alloc::{AllocError, Global};

/// The place after each label, of a label that occurs twice after the first; of any other the place
/// after the last line.
#[derive(Drop)]
pub struct LineLabels {
    places: LabelPlaces,
}

impl LineLabels {
    /// The table of a function. The only error is want of memory.
    pub fn of_function(alloc: Global, lin: &Lin) -> Result<LineLabels, AllocError>
        requires { length lin.now.code < 2 ^ 32 }
        ensures { IfOk result (AreLabelsOf lin.now) }
    {
        let code = lin.code.as_slice();
        let end = code.len() as u32;
        let mut labels = LineLabels {
            places: LabelPlaces::new(alloc, end),
        };
        let mut place = end;
        while place > 0 {
            let after = place;
            place -= 1;
            labels.put(&code[place as usize].op, after)?;
        }
        Ok(labels)
    }

    /// Enters the label that the line has, if it has one.
    fn put(&mut self, op: &LinOp, after: u32) -> Result<(), AllocError>
        ensures { IfOk result (λ _. (l : ℕ) → line_of_label self.new l ≡
            cond (has_label l op.now) after (line_of_label self.old l)) }
    {
        match op.own_label() {
            None => Ok(()),
            Some(label) => self.places.put(label, after),
        }
    }

    /// The place after the label.
    pub fn place_of(&self, label: Label) -> u32
        ensures { result ≡ line_of_label self.now label }
    {
        self.places.place_of(label)
    }

    /// The places after these labels, in their order. The only error is want of memory.
    pub fn places_of(&self, alloc: Global, among: &[Label]) -> Result<Vec<u32>, AllocError>
        ensures { IfOk result (λ places. (p : ℕ) →
            places.items ≡ map (place_to (line_of_label self.now) p) (map At among.now)) }
    {
        self.places.places_of(alloc, among)
    }
}
