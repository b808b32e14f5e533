//! Places of labels.
ghost use Rattle.std.specs.Prelude.{◌≡◌, ℕ, cond, map, nat_eq, IfOk};
ghost use Rattle.mach_ir.specs.Acts.{At};
ghost use Rattle.mach_ir.specs.Labels.{place_of_label, place_to};

use crate::label::Label;
use std::alloc::{AllocError, Global};
use std::collections::BTreeMap;

/// The place of each label that was entered; of any other the end.
#[derive(Drop)]
pub struct LabelPlaces {
    places: BTreeMap<u32, u32>,
    end: u32,
}

impl LabelPlaces {
    /// Those of no label. It takes no memory.
    pub fn new(alloc: Global, end: u32) -> Self
        ensures { (l : ℕ) → place_of_label result l ≡ end }
    {
        LabelPlaces {
            places: BTreeMap::new(alloc),
            end,
        }
    }

    /// Enters a label, in place of what it had. The only error is want of memory.
    pub fn put(&mut self, label: Label, place: u32) -> Result<(), AllocError>
        ensures { IfOk result (λ _. (l : ℕ) → place_of_label self.new l ≡
            cond (nat_eq label l) place (place_of_label self.old l)) }
    {
        self.places.insert(label.0, place)?;
        Ok(())
    }

    /// The place of the label.
    pub fn place_of(&self, label: Label) -> u32
        ensures { result ≡ place_of_label self.now label }
    {
        match self.places.get(&label.0) {
            None => self.end,
            Some(place) => *place,
        }
    }

    /// The places of these labels, in their order, wherever they are asked for. The only error is want
    /// of memory.
    pub fn places_of(&self, alloc: Global, among: &[Label]) -> Result<Vec<u32>, AllocError>
        ensures { IfOk result (λ places. (p : ℕ) →
            places.items ≡ map (place_to (place_of_label self.now) p) (map At among.now)) }
    {
        let mut places = Vec::with_capacity(alloc, among.len())?;
        for label in among {
            places.push(self.place_of(*label))?;
        }
        Ok(places)
    }
}
