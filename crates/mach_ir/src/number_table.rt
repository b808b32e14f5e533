//! Tables by the numbers of registers, of labels or of places.
ghost use Rattle.std.specs.Prelude.{◌≡◌, ℕ, cond, nat_eq, IfOk};
ghost use Rattle.mach_ir.specs.NumberTables.{table_entry};

use std::alloc::{AllocError, Global};

/// For each number what was put there last, 0 where nothing was. The table is one longer than the greatest
/// number, so the numbers should be dense, as those of labels and of registers are.
#[derive(Drop)]
pub struct NumberTable {
    entries: Vec<usize>,
}

impl NumberTable {
    /// Nothing was put. It takes no memory.
    pub fn new(alloc: Global) -> NumberTable
        ensures { (n : ℕ) → table_entry result n ≡ 0 }
    {
        NumberTable {
            entries: Vec::new(alloc),
        }
    }

    /// What was put at the number last, or 0.
    pub fn get(&self, number: u32) -> usize
        ensures { result ≡ table_entry self.now number }
    {
        match self.entries.get(number as usize) {
            None => 0,
            Some(entry) => *entry,
        }
    }

    /// Puts it at the number. After an error nothing is known of the table.
    pub fn put(&mut self, number: u32, new: usize) -> Result<(), AllocError>
        ensures { IfOk result (λ _. (n : ℕ) →
            table_entry self.new n ≡ cond (nat_eq number n) new (table_entry self.old n)) }
    {
        let index = number as usize;
        if index < self.entries.len() {
            self.entries[index] = new;
            return Ok(());
        }
        self.entries.resize(index, 0)?;
        self.entries.push(new)?;
        Ok(())
    }
}
