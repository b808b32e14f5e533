//! The registers that some read may find both written since the last call and not.
ghost use Rattle.std.specs.Prelude.{◌≡◌, false, replicate, IfOk};
ghost use Rattle.bs_bits.specs.Set.{has};
ghost use Rattle.dataflow.specs.Rows.{set_in_row};
ghost use Rattle.sink.specs.Mixed.{noted_reads, noted_code};

use bs_bits::Bits;
use dataflow::Rows;
use mach_ir::{Instr, Reg};
use std::alloc::{AllocError, Global};

/// Whether the number is in the set. None from its size on is.
pub fn is_in(set: &Bits, number: u32) -> bool
    ensures { result ≡ has set.now number }
{
    number < set.size() && set.contains(number)
}

/// Takes in those of the registers that are both fresh and stale at the place.
fn note_reads(mixed: &mut Bits, fresh: &Rows, stale: &Rows, place: usize, regs: &[Reg])
    ensures { mixed.new ≡ noted_reads (set_in_row fresh.now.rows.items place)
        (set_in_row stale.now.rows.items place) regs.now mixed.old }
{
    for reg in regs {
        let number = reg.number;
        if number < mixed.size() && fresh.contains(place, number) && stale.contains(place, number) {
            mixed.insert(number);
        }
    }
}

/// The numbers below `size` that some instruction of the code reads where they are both fresh and stale.
/// The only error is want of memory.
pub fn mixed_reads(
    alloc: Global,
    code: &[Instr],
    fresh: &Rows,
    stale: &Rows,
    size: u32,
) -> Result<Bits, AllocError>
    ensures { IfOk result (λ mixed. mixed
        ≡ noted_code fresh.now.rows.items stale.now.rows.items 0 code.now (replicate size false)) }
{
    let mut mixed = Bits::new(alloc, size)?;
    for place in 0..code.len() {
        note_reads(&mut mixed, fresh, stale, place, code[place].args.as_slice());
    }
    Ok(mixed)
}
