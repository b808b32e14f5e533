//! The integer registers and what compiled code keeps in them.
//!
//! Their names are those of the calling convention (RISC-V ELF psABI, "Register Convention"). What they are
//! used for is the convention of this compiler.
//!
//! Registers have this one home, below all that speaks of them. Above, no code or definition has a plain
//! number of one, but rows of tests, and a jump that keeps no return address (0, which is x0). Definitions
//! say them in words that compute to the same numbers, since proofs compute with these.

ghost use Rattle.std.specs.Prelude.{◌≡◌, option_copied, slice_get};

/// An integer register, x0 to x31, in the order of their numbers. Those that pass arguments of a
/// call (`ARGUMENT_REGISTERS`) hold values of a function too (`COLOURS`).
#[derive(Copy, Clone)]
pub enum Register {
    /// Reads 0, and takes nothing.
    Zero,
    /// The return address.
    Ra,
    /// The stack pointer.
    Sp,
    /// Not used.
    Gp,
    /// Not used.
    Tp,
    /// Scratch; the number of an external call, or the bytes asked for.
    T0,
    /// Scratch.
    T1,
    /// Scratch; the number of a service.
    T2,
    /// Holds values of a function.
    S0,
    /// The trap pointer: the address of the innermost trap frame.
    S1,
    /// The first argument, the result, and the value that is raised.
    A0,
    /// The second argument.
    A1,
    /// The third argument.
    A2,
    /// The fourth argument.
    A3,
    /// The fifth argument.
    A4,
    /// The sixth argument.
    A5,
    /// The seventh argument.
    A6,
    /// The eighth argument.
    A7,
    /// The ninth argument.
    S2,
    /// The tenth argument.
    S3,
    /// The eleventh argument.
    S4,
    /// The twelfth argument.
    S5,
    /// The thirteenth argument.
    S6,
    /// The fourteenth argument.
    S7,
    /// The fifteenth argument.
    S8,
    /// The sixteenth argument.
    S9,
    /// The allocation pointer.
    S10,
    /// The address of the domain page.
    S11,
    /// Holds values of a function.
    T3,
    /// Holds values of a function.
    T4,
    /// Holds values of a function.
    T5,
    /// Holds values of a function.
    T6,
}

/// All of them, by their numbers.
const REGISTERS: [Register; 32] = [
    Register::Zero,
    Register::Ra,
    Register::Sp,
    Register::Gp,
    Register::Tp,
    Register::T0,
    Register::T1,
    Register::T2,
    Register::S0,
    Register::S1,
    Register::A0,
    Register::A1,
    Register::A2,
    Register::A3,
    Register::A4,
    Register::A5,
    Register::A6,
    Register::A7,
    Register::S2,
    Register::S3,
    Register::S4,
    Register::S5,
    Register::S6,
    Register::S7,
    Register::S8,
    Register::S9,
    Register::S10,
    Register::S11,
    Register::T3,
    Register::T4,
    Register::T5,
    Register::T6,
];

/// The registers of the arguments of a call, in order, by number.
pub const ARGUMENT_REGISTERS: [u8; 16] = [
    Register::A0 as u8,
    Register::A1 as u8,
    Register::A2 as u8,
    Register::A3 as u8,
    Register::A4 as u8,
    Register::A5 as u8,
    Register::A6 as u8,
    Register::A7 as u8,
    Register::S2 as u8,
    Register::S3 as u8,
    Register::S4 as u8,
    Register::S5 as u8,
    Register::S6 as u8,
    Register::S7 as u8,
    Register::S8 as u8,
    Register::S9 as u8,
];

/// The twenty-one registers that hold the values of a function, by number, those first that are taken first.
pub const COLOURS: [u8; 21] = [
    Register::A0 as u8,
    Register::A1 as u8,
    Register::A2 as u8,
    Register::A3 as u8,
    Register::A4 as u8,
    Register::A5 as u8,
    Register::A6 as u8,
    Register::A7 as u8,
    Register::S2 as u8,
    Register::S3 as u8,
    Register::S4 as u8,
    Register::S5 as u8,
    Register::S6 as u8,
    Register::S7 as u8,
    Register::S8 as u8,
    Register::S9 as u8,
    Register::T3 as u8,
    Register::T4 as u8,
    Register::T5 as u8,
    Register::T6 as u8,
    Register::S0 as u8,
];

impl Register {
    ghost use Rattle.std.specs.Prelude.{◌≡◌, ◌<◌};
    ghost use Rattle.rv_isa.specs.Registers.{machine_name, register_number, register_at};

    /// The register of a number; x0 where no register has it.
    pub fn at(number: u8) -> Self
        ensures { result ≡ register_at number }
    {
        match register_in(&REGISTERS, number as usize) {
            Some(register) => *register,
            None => Register::Zero,
        }
    }

    /// Its number, as the fields of an instruction have it.
    pub fn number(self) -> u8
        ensures exact { result ≡ register_number self }
        ensures below { result < 32 }
    {
        self as u8
    }

    /// Its name in the calling convention.
    pub fn name(self) -> &'static str
        ensures { result.now ≡ machine_name self }
    {
        match self {
            Register::Zero => "zero",
            Register::Ra => "ra",
            Register::Sp => "sp",
            Register::Gp => "gp",
            Register::Tp => "tp",
            Register::T0 => "t0",
            Register::T1 => "t1",
            Register::T2 => "t2",
            Register::S0 => "s0",
            Register::S1 => "s1",
            Register::A0 => "a0",
            Register::A1 => "a1",
            Register::A2 => "a2",
            Register::A3 => "a3",
            Register::A4 => "a4",
            Register::A5 => "a5",
            Register::A6 => "a6",
            Register::A7 => "a7",
            Register::S2 => "s2",
            Register::S3 => "s3",
            Register::S4 => "s4",
            Register::S5 => "s5",
            Register::S6 => "s6",
            Register::S7 => "s7",
            Register::S8 => "s8",
            Register::S9 => "s9",
            Register::S10 => "s10",
            Register::S11 => "s11",
            Register::T3 => "t3",
            Register::T4 => "t4",
            Register::T5 => "t5",
            Register::T6 => "t6",
        }
    }
}

/// The register at an index.
fn register_in(registers: &[Register], index: usize) -> Option<&Register>
    ensures { option_copied result ≡ slice_get registers.now index }
{
    registers.get(index)
}
