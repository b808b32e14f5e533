//! Which registers are joined, as a square of bits.
ghost use Rattle.std.specs.Prelude.{◌≡◌, ◌<◌, ℕ, false, length, IfOk};
ghost use Rattle.bs_bits.specs.Set.{has};
ghost use Rattle.dataflow.specs.Rows.{set_in_row};
ghost use Rattle.interfere.specs.Pairs.{AddsPairs, PutsPair, IsPair};

use bs_bits::Bits;
use std::alloc::{AllocError, Global};
use std::marker::Model;

/// A row of bits for each register, by number: the numbers of those that it is joined with. Contracts
/// see the rows; each has as many numbers as there are rows.
#[derive(Drop)]
pub struct Matrix {
    rows: Vec<Bits>,
}

impl Model for Matrix {
    ghost use Rattle.std.specs.Prelude.{List, Bool, length};

    ghost Value = { List (List Bool) };

    ghost use Rattle.dataflow.specs.Rows.{HasSizes};

    ghost view = { λ matrix. matrix.rows.items };

    ghost invariant = { λ matrix. HasSizes (length matrix.rows.items) matrix.rows.items };
}

impl Matrix {
    /// No pairs, of numbers below `size`. The only error is want of memory.
    pub fn new(alloc: Global, size: u32) -> Result<Self, AllocError>
        ensures len { IfOk result (λ matrix. length matrix ≡ size) }
        ensures none { IfOk result (λ matrix. (n k : ℕ) → has (set_in_row matrix n) k ≡ false) }
    {
        let mut rows = Vec::with_capacity(alloc, size as usize)?;
        for _number in 0..size {
            rows.push(Bits::new(alloc, size)?)?;
        }
        Ok(Matrix { rows })
    }

    /// Puts `other` into the row of `number`.
    fn put(&mut self, number: u32, other: u32)
        requires number { number < length self.old }
        requires other { other < length self.old }
        ensures { PutsPair self.old self.new number other }
    {
        let row = &mut self.rows[number as usize];
        row.insert(other);
    }

    /// Joins two registers, both ways. Nothing is joined with itself.
    pub fn join(&mut self, number: u32, other: u32)
        requires number { number < length self.old }
        requires other { other < length self.old }
        ensures { AddsPairs self.old self.new (IsPair number other) }
    {
        if number != other {
            self.put(number, other);
            self.put(other, number);
        }
    }

    /// The registers that this one is joined with.
    pub fn row(&self, number: u32) -> &Bits
        requires { number < length self.now }
        ensures { result.now ≡ set_in_row self.now number }
    {
        &self.rows[number as usize]
    }
}
