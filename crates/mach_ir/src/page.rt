//! The words in which functions of both languages are printed.
ghost use Rattle.std.specs.Prelude.{◌≡◌, ◌++◌, codes, IfOk};
ghost use Rattle.std.specs.Fmt.{decimal};
ghost use Rattle.mach_ir.specs.Pages.{AddsText};
ghost use Rattle.mach_ir.specs.Words.{comp_letter, register_name, label_text, word_text, separator, signed_word};
ghost use Rattle.mach_ir.specs.Words.{unsigned_word, operator_word, chunk_word, copy_word, pure_word, access_word};
ghost use Rattle.mach_ir.specs.Words.{calling_word, leaving_word, op_word, test_word, right_text, test_right};
ghost use Rattle.mach_ir.specs.Words.{pure_text, access_text, callee_text, calling_text, leaving_text, op_text};

use crate::label::Label;
use crate::mach::Test;
use crate::op::{Access, Callee, Calling, CopyKind, Leaving, Op, Pure, Right};
use bs_words::{Chunk, CmpOp, Comp, IntOp, signed};
use itoa::Buffer;
use rv_isa::Register;
use std::alloc::{AllocError, Global};

/// Text that grows at its end.
#[derive(Drop)]
pub struct Page {
    /// The bytes of the text.
    pub bytes: Vec<u8>,
}

impl Page {
    /// The empty page. It takes no memory.
    pub fn new(alloc: Global) -> Self
        ensures { result.bytes.items ≡ codes "" }
    {
        Page {
            bytes: Vec::new(alloc),
        }
    }

    /// Adds a piece of text at the end. The only error is want of memory.
    pub fn put(&mut self, piece: &[u8]) -> Result<(), AllocError>
        ensures { IfOk result (λ _. AddsText self.old self.new piece.now) }
    {
        self.bytes.extend_from_slice(piece)?;
        Ok(())
    }

    /// Adds a number in decimal. The only error is want of memory.
    pub fn put_number(&mut self, number: u64) -> Result<(), AllocError>
        ensures { IfOk result (λ _. AddsText self.old self.new (decimal number)) }
    {
        let mut digits = Buffer::new();
        self.put(digits.format(number).as_bytes())
    }

    /// A word by its signed reading. The only error is want of memory.
    pub fn put_word(&mut self, word: u64) -> Result<(), AllocError>
        ensures { IfOk result (λ _. AddsText self.old self.new (word_text word)) }
    {
        let mut digits = Buffer::new();
        self.put(digits.format(signed(word)).as_bytes())
    }

    /// Adds a label: `L` and its number. The only error is want of memory.
    pub fn put_label(&mut self, label: Label) -> Result<(), AllocError>
        ensures { IfOk result (λ _. AddsText self.old self.new (label_text label)) }
    {
        self.put(b"L")?;
        self.put_number(u64::from(label.0))
    }

    /// What is before an operand. The only error is want of memory.
    pub fn put_separator(&mut self, first: bool) -> Result<(), AllocError>
        ensures { IfOk result (λ _. AddsText self.old self.new (separator first)) }
    {
        self.put(if first { b" " } else { b", " })
    }

    fn put_named(&mut self, letter: &[u8], number: u8) -> Result<(), AllocError>
        ensures { IfOk result (λ _. AddsText self.old self.new (letter.now ++ decimal number)) }
    {
        self.put(letter)?;
        self.put_number(u64::from(number))
    }

    /// The name of a register of the machine. The only error is want of memory.
    pub fn put_register(&mut self, number: u8) -> Result<(), AllocError>
        ensures { IfOk result (λ _. AddsText self.old self.new (register_name number)) }
    {
        if Register::T0 as u8 <= number && number <= Register::T2 as u8 {
            self.put_named(b"t", number - Register::T0 as u8)
        } else if Register::S0 as u8 <= number && number <= Register::S1 as u8 {
            self.put_named(b"s", number - Register::S0 as u8)
        } else if Register::A0 as u8 <= number && number <= Register::A7 as u8 {
            self.put_named(b"a", number - Register::A0 as u8)
        } else if Register::S2 as u8 <= number && number <= Register::S11 as u8 {
            self.put_named(b"s", 2 + (number - Register::S2 as u8))
        } else if Register::T3 as u8 <= number && number <= Register::T6 as u8 {
            self.put_named(b"t", 3 + (number - Register::T3 as u8))
        } else {
            self.put_named(b"x", number)
        }
    }

    /// A slot. The only error is want of memory.
    pub fn put_slot(&mut self, slot: u32) -> Result<(), AllocError>
        ensures { IfOk result (λ _.
            AddsText self.old self.new (codes "[" ++ decimal slot ++ codes "]")) }
    {
        self.put(b"[")?;
        self.put_number(u64::from(slot))?;
        self.put(b"]")
    }

    /// The component of what is before it. The only error is want of memory.
    pub fn put_comp(&mut self, comp: Comp) -> Result<(), AllocError>
        ensures { IfOk result (λ _. AddsText self.old self.new (codes ":" ++ comp_letter comp)) }
    {
        self.put(b":")?;
        self.put(letter_of(comp))
    }

    /// The word of an operation. The only error is want of memory.
    pub fn put_op_word(&mut self, op: &Op) -> Result<(), AllocError>
        ensures { IfOk result (λ _. AddsText self.old self.new (op_word op.now)) }
    {
        match op {
            Op::Pure(pure) => self.put(word_of_pure(pure)),
            Op::Access(access) => self.put_access_word(access),
            Op::Calling(calling) => self.put(word_of_calling(calling)),
            Op::Leaving(leaving) => self.put(word_of_leaving(*leaving)),
        }
    }

    fn put_access_word(&mut self, access: &Access) -> Result<(), AllocError>
        ensures { IfOk result (λ _. AddsText self.old self.new (access_word access.now)) }
    {
        match access {
            Access::Load { chunk, offset: _ } => {
                self.put(b"load.")?;
                self.put(word_of_chunk(*chunk))
            }
            Access::Store { chunk, offset: _ } => {
                self.put(b"store.")?;
                self.put(word_of_chunk(*chunk))
            }
            Access::Alloc(_) => self.put(b"alloc"),
        }
    }

    /// The word of a test, after that of what tests. The only error is want of memory.
    pub fn put_test_word(&mut self, test: Test) -> Result<(), AllocError>
        ensures { IfOk result (λ _. AddsText self.old self.new (test_word test)) }
    {
        match test {
            Test::Holds => Ok(()),
            Test::Fails => self.put(b" not"),
            Test::Signed(compare, _) => {
                self.put(b" ")?;
                self.put(word_of_signed(compare))
            }
            Test::Unsigned(compare, _) => {
                self.put(b" ")?;
                self.put(word_of_unsigned(compare))
            }
        }
    }

    /// A right operand that is a constant. The only error is want of memory.
    pub fn put_right(&mut self, first: bool, right: Right) -> Result<(), AllocError>
        ensures { IfOk result (λ _. AddsText self.old self.new (right_text first right)) }
    {
        match right {
            Right::Register => Ok(()),
            Right::Constant(word) => {
                self.put_separator(first)?;
                self.put_word(word)
            }
        }
    }

    fn put_name(&mut self, first: bool, name: &[u8]) -> Result<(), AllocError>
        ensures { IfOk result (λ _. AddsText self.old self.new (separator first ++ name.now)) }
    {
        self.put_separator(first)?;
        self.put(name)
    }

    fn put_constant(&mut self, first: bool, word: u64) -> Result<(), AllocError>
        ensures { IfOk result (λ _. AddsText self.old self.new (separator first ++ word_text word)) }
    {
        self.put_separator(first)?;
        self.put_word(word)
    }

    fn put_pure(&mut self, first: bool, pure: &Pure) -> Result<(), AllocError>
        ensures { IfOk result (λ _. AddsText self.old self.new (pure_text first pure.now)) }
    {
        match pure {
            Pure::Copy(_) => Ok(()),
            Pure::Constant(word) => self.put_constant(first, *word),
            Pure::Symbol(name) => self.put_name(first, name.as_bytes()),
            Pure::Operator(_, right) => self.put_right(first, *right),
        }
    }

    fn put_access(&mut self, first: bool, access: &Access) -> Result<(), AllocError>
        ensures { IfOk result (λ _. AddsText self.old self.new (access_text first access.now)) }
    {
        match access {
            Access::Load { chunk: _, offset } => self.put_constant(first, *offset),
            Access::Store { chunk: _, offset } => self.put_constant(first, *offset),
            Access::Alloc(blocks) => {
                self.put_separator(first)?;
                self.put_number(u64::from(blocks.bytes()))
            }
        }
    }

    fn put_callee(&mut self, first: bool, callee: &Callee) -> Result<(), AllocError>
        ensures { IfOk result (λ _. AddsText self.old self.new (callee_text first callee.now)) }
    {
        match callee {
            Callee::Symbol(name) => self.put_name(first, name.as_bytes()),
            Callee::Register => Ok(()),
        }
    }

    fn put_calling(&mut self, first: bool, calling: &Calling) -> Result<(), AllocError>
        ensures { IfOk result (λ _. AddsText self.old self.new (calling_text first calling.now)) }
    {
        match calling {
            Calling::Call { callee, result: _ } => self.put_callee(first, callee),
            Calling::TailCall { callee, result: _ } => self.put_callee(first, callee),
            Calling::External { row, frame: _ } => self.put_name(first, row.name.as_bytes()),
        }
    }

    fn put_leaving(&mut self, first: bool, leaving: Leaving) -> Result<(), AllocError>
        ensures { IfOk result (λ _. AddsText self.old self.new (leaving_text first leaving)) }
    {
        match leaving {
            Leaving::Checkbound(right) => self.put_right(first, right),
            Leaving::Raise => Ok(()),
            Leaving::Return => Ok(()),
        }
    }

    /// The operands of an operation that are no registers. The only error is want of memory.
    pub fn put_op(&mut self, first: bool, op: &Op) -> Result<(), AllocError>
        ensures { IfOk result (λ _. AddsText self.old self.new (op_text first op.now)) }
    {
        match op {
            Op::Pure(pure) => self.put_pure(first, pure),
            Op::Access(access) => self.put_access(first, access),
            Op::Calling(calling) => self.put_calling(first, calling),
            Op::Leaving(leaving) => self.put_leaving(first, *leaving),
        }
    }
}

/// The right operand of a test.
pub fn right_of(test: Test) -> Right
    ensures { result ≡ test_right test }
{
    match test {
        Test::Holds => Right::Register,
        Test::Fails => Right::Register,
        Test::Signed(_, right) => right,
        Test::Unsigned(_, right) => right,
    }
}

fn letter_of(comp: Comp) -> &'static [u8]
    ensures { result.now ≡ comp_letter comp }
{
    match comp {
        Comp::Int => b"i",
        Comp::Val => b"v",
        Comp::Addr => b"a",
        Comp::Float => b"f",
    }
}

fn word_of_signed(compare: CmpOp) -> &'static [u8]
    ensures { result.now ≡ signed_word compare }
{
    match compare {
        CmpOp::Eq => b"eq",
        CmpOp::Ne => b"ne",
        CmpOp::Lt => b"lt",
        CmpOp::Le => b"le",
        CmpOp::Gt => b"gt",
        CmpOp::Ge => b"ge",
    }
}

fn word_of_unsigned(compare: CmpOp) -> &'static [u8]
    ensures { result.now ≡ unsigned_word compare }
{
    match compare {
        CmpOp::Eq => b"eqa",
        CmpOp::Ne => b"nea",
        CmpOp::Lt => b"ltu",
        CmpOp::Le => b"leu",
        CmpOp::Gt => b"gtu",
        CmpOp::Ge => b"geu",
    }
}

fn word_of_operator(operator: IntOp) -> &'static [u8]
    ensures { result.now ≡ operator_word operator }
{
    match operator {
        IntOp::Add => b"add",
        IntOp::AddV => b"add",
        IntOp::AddA => b"add",
        IntOp::Sub => b"sub",
        IntOp::Mul => b"mul",
        IntOp::Mulh => b"mulh",
        IntOp::Div => b"div",
        IntOp::Mod => b"mod",
        IntOp::And => b"and",
        IntOp::Or => b"or",
        IntOp::Xor => b"xor",
        IntOp::Shl => b"shl",
        IntOp::Shr => b"shr",
        IntOp::Sar => b"sar",
        IntOp::Cmp(compare) => word_of_signed(compare),
        IntOp::CmpU(compare) => word_of_unsigned(compare),
    }
}

fn word_of_chunk(chunk: Chunk) -> &'static [u8]
    ensures { result.now ≡ chunk_word chunk }
{
    match chunk {
        Chunk::U8 => b"u8",
        Chunk::I8 => b"i8",
        Chunk::U16 => b"u16",
        Chunk::I16 => b"i16",
        Chunk::U32 => b"u32",
        Chunk::I32 => b"i32",
        Chunk::Int => b"int",
        Chunk::Val => b"val",
    }
}

fn word_of_copy(kind: CopyKind) -> &'static [u8]
    ensures { result.now ≡ copy_word kind }
{
    match kind {
        CopyKind::Move => b"move",
        CopyKind::Spill => b"spill",
        CopyKind::Reload => b"reload",
    }
}

fn word_of_pure(pure: &Pure) -> &'static [u8]
    ensures { result.now ≡ pure_word pure.now }
{
    match pure {
        Pure::Copy(kind) => word_of_copy(*kind),
        Pure::Constant(_) => b"const",
        Pure::Symbol(_) => b"symbol",
        Pure::Operator(operator, _) => word_of_operator(*operator),
    }
}

fn word_of_calling(calling: &Calling) -> &'static [u8]
    ensures { result.now ≡ calling_word calling.now }
{
    match calling {
        Calling::Call {
            callee: Callee::Symbol(_),
            result: _,
        } => b"call",
        Calling::Call {
            callee: Callee::Register,
            result: _,
        } => b"callreg",
        Calling::TailCall {
            callee: Callee::Symbol(_),
            result: _,
        } => b"tailcall",
        Calling::TailCall {
            callee: Callee::Register,
            result: _,
        } => b"tailcallreg",
        Calling::External {
            row: _,
            frame: false,
        } => b"extcall",
        Calling::External {
            row: _,
            frame: true,
        } => b"extcallframe",
    }
}

fn word_of_leaving(leaving: Leaving) -> &'static [u8]
    ensures { result.now ≡ leaving_word leaving }
{
    match leaving {
        Leaving::Checkbound(_) => b"checkbound",
        Leaving::Raise => b"raise",
        Leaving::Return => b"return",
    }
}
