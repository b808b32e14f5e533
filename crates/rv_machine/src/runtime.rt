//! What the services of the runtime do to the machine.
ghost use Rattle.std.specs.Prelude.{◌≡◌, slice_index};
ghost use Rattle.rv_machine.specs.Services.{filled_registers, destroyed};

use crate::start::FILLER;
use rv_isa::Register;

// An external call destroys a0 to a7 and t3 to t6.
pub(crate) fn destroy(registers: &mut [u64; 32])
    ensures exact { registers.new ≡ filled_registers destroyed registers.old }
    ensures zero { slice_index registers.new 0 ≡ slice_index registers.old 0 }
{
    registers[Register::A0 as usize] = FILLER;
    registers[Register::A1 as usize] = FILLER;
    registers[Register::A2 as usize] = FILLER;
    registers[Register::A3 as usize] = FILLER;
    registers[Register::A4 as usize] = FILLER;
    registers[Register::A5 as usize] = FILLER;
    registers[Register::A6 as usize] = FILLER;
    registers[Register::A7 as usize] = FILLER;
    registers[Register::T3 as usize] = FILLER;
    registers[Register::T4 as usize] = FILLER;
    registers[Register::T5 as usize] = FILLER;
    registers[Register::T6 as usize] = FILLER;
}
