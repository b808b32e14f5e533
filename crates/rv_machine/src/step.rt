//! One instruction of the hart.
ghost use Rattle.std.specs.Prelude.{◌≡◌, ◌+◌, ◌-◌, ◌^◌, ◌<◌};
ghost use Rattle.rv_isa.specs.Encoding.{InstrFits};
ghost use Rattle.rv_machine.specs.Hart.{executed, hart, jumps_if_aligned, sets};
ghost use Rattle.rv_machine.specs.Memory.{loaded_number};
ghost use Rattle.rv_machine.specs.Step.{counted_next, next_of, StaysUnlessRetired, IsNear};

use crate::arithmetic;
use crate::cause::Cause;
use crate::machine::Machine;
use crate::step_end::StepEnd;
use rv_isa::{
    AluImmOp, AluOp, AluWordOp, Condition, Instr, LoadWidth, ShiftOp, ShiftWordOp, StoreWidth,
    decode,
};

impl<'a> Machine<'a> {
    /// Runs the instruction at the program counter. An ECALL is not run: it answers `Service`.
    ///
    /// It takes no memory. Each word is decoded as it comes. The count of instructions stays at the end of
    /// its type.
    #[tactic(auto, unfolding(crate::specs::Hart::hart))]
    pub fn step(&mut self) -> StepEnd
        ensures exact { next_of result self.new ≡ counted_next (hart self.old) }
        ensures kept { StaysUnlessRetired result self.old self.new }
        ensures near { IsNear result self.new }
    {
        let Some(word) = self.fetch() else {
            return StepEnd::Stopped(Cause::BadFetch);
        };
        let Some(instr) = decode(word) else {
            return StepEnd::Stopped(Cause::BadWord);
        };
        self.execute(instr)
    }

    // What an instruction does.
    fn execute(&mut self, instr: Instr) -> StepEnd
        requires fits { InstrFits instr }
        requires within { self.old.pc < 2 ^ 32 }
        ensures exact { next_of result self.new ≡ counted_next (executed instr self.old) }
        ensures kept { StaysUnlessRetired result self.old self.new }
    {
        let next = self.pc() + 4;
        match instr {
            Instr::Lui { rd, imm } => self.set(rd, arithmetic::imm_u(imm), next),
            Instr::Auipc { rd, imm } => {
                let value = bs_words::add(self.pc(), arithmetic::imm_u(imm));
                self.set(rd, value, next)
            }
            Instr::Jal { rd, offset } => self.jal(rd, offset),
            Instr::Jalr { rd, rs1, imm } => self.jalr(rd, rs1, imm),
            Instr::Branch {
                condition,
                rs1,
                rs2,
                offset,
            } => self.branch(condition, rs1, rs2, offset),
            Instr::Load {
                width,
                rd,
                rs1,
                imm,
            } => self.load(width, rd, rs1, imm),
            Instr::Store {
                width,
                rs1,
                rs2,
                imm,
            } => self.store(width, rs1, rs2, imm),
            Instr::OpImm { op, rd, rs1, imm } => self.op_imm(op, rd, rs1, imm),
            Instr::Shift {
                op,
                rd,
                rs1,
                amount,
            } => self.shift(op, rd, rs1, amount),
            Instr::Op { op, rd, rs1, rs2 } => self.op(op, rd, rs1, rs2),
            Instr::Addiw { rd, rs1, imm } => {
                let sum = bs_words::add(self.register(rs1), arithmetic::imm_i(imm));
                self.set(rd, arithmetic::extended(sum), next)
            }
            Instr::ShiftWord {
                op,
                rd,
                rs1,
                amount,
            } => self.shift_word(op, rd, rs1, amount),
            Instr::OpWord { op, rd, rs1, rs2 } => self.op_word(op, rd, rs1, rs2),
            Instr::Ecall => StepEnd::Service,
        }
    }

    // A jump that leaves the address of the next instruction in `rd`.
    fn jump(&mut self, rd: u8, target: u64) -> StepEnd
        requires number { rd < 32 }
        requires within { self.old.pc < 2 ^ 32 }
        ensures exact { next_of result self.new
            ≡ counted_next (jumps_if_aligned target (sets rd (self.old.pc + 4) target self.old)) }
        ensures kept { StaysUnlessRetired result self.old self.new }
    {
        if target % 4 != 0 {
            return StepEnd::Stopped(Cause::BadFetch);
        }
        let next = self.pc() + 4;
        self.set(rd, next, target)
    }

    fn jal(&mut self, rd: u8, offset: u32) -> StepEnd
        requires fits { InstrFits (Instr.Jal rd offset) }
        requires within { self.old.pc < 2 ^ 32 }
        ensures exact { next_of result self.new
            ≡ counted_next (executed (Instr.Jal rd offset) self.old) }
        ensures kept { StaysUnlessRetired result self.old self.new }
    {
        let target = bs_words::add(self.pc(), arithmetic::imm_j(offset));
        self.jump(rd, target)
    }

    fn jalr(&mut self, rd: u8, rs1: u8, imm: u16) -> StepEnd
        requires fits { InstrFits (Instr.Jalr rd rs1 imm) }
        requires within { self.old.pc < 2 ^ 32 }
        ensures exact { next_of result self.new
            ≡ counted_next (executed (Instr.Jalr rd rs1 imm) self.old) }
        ensures kept { StaysUnlessRetired result self.old self.new }
    {
        let sum = bs_words::add(self.register(rs1), arithmetic::imm_i(imm));
        self.jump(rd, sum - sum % 2)
    }

    fn branch(&mut self, condition: Condition, rs1: u8, rs2: u8, offset: u16) -> StepEnd
        requires fits { InstrFits (Instr.Branch condition rs1 rs2 offset) }
        requires within { self.old.pc < 2 ^ 32 }
        ensures exact { next_of result self.new
            ≡ counted_next (executed (Instr.Branch condition rs1 rs2 offset) self.old) }
        ensures kept { StaysUnlessRetired result self.old self.new }
    {
        if !arithmetic::is_taken(condition, self.register(rs1), self.register(rs2)) {
            let next = self.pc() + 4;
            return self.go_to(next);
        }
        let target = bs_words::add(self.pc(), arithmetic::imm_b(offset));
        if target % 4 != 0 {
            return StepEnd::Stopped(Cause::BadFetch);
        }
        self.go_to(target)
    }

    fn load(&mut self, width: LoadWidth, rd: u8, rs1: u8, imm: u16) -> StepEnd
        requires fits { InstrFits (Instr.Load width rd rs1 imm) }
        requires within { self.old.pc < 2 ^ 32 }
        ensures exact { next_of result self.new
            ≡ counted_next (executed (Instr.Load width rd rs1 imm) self.old) }
        ensures kept { StaysUnlessRetired result self.old self.new }
    {
        let address = bs_words::add(self.register(rs1), arithmetic::imm_i(imm));
        let Some(bytes) = self.loaded(address, arithmetic::bytes_loaded(width)) else {
            return StepEnd::Stopped(Cause::BadAccess);
        };
        let next = self.pc() + 4;
        self.set(rd, arithmetic::register_loaded(width, bytes), next)
    }

    fn store(&mut self, width: StoreWidth, rs1: u8, rs2: u8, imm: u16) -> StepEnd
        requires fits { InstrFits (Instr.Store width rs1 rs2 imm) }
        requires within { self.old.pc < 2 ^ 32 }
        ensures exact { next_of result self.new
            ≡ counted_next (executed (Instr.Store width rs1 rs2 imm) self.old) }
        ensures kept { StaysUnlessRetired result self.old self.new }
    {
        let address = bs_words::add(self.register(rs1), arithmetic::imm_i(imm));
        let value = self.register(rs2);
        if !self.stored(address, arithmetic::bytes_stored(width), value) {
            return StepEnd::Stopped(Cause::BadAccess);
        }
        let next = self.pc() + 4;
        self.go_to(next)
    }

    fn op_imm(&mut self, op: AluImmOp, rd: u8, rs1: u8, imm: u16) -> StepEnd
        requires fits { InstrFits (Instr.OpImm op rd rs1 imm) }
        requires within { self.old.pc < 2 ^ 32 }
        ensures exact { next_of result self.new
            ≡ counted_next (executed (Instr.OpImm op rd rs1 imm) self.old) }
        ensures kept { StaysUnlessRetired result self.old self.new }
    {
        let next = self.pc() + 4;
        let value = arithmetic::alu_imm(op, self.register(rs1), imm);
        self.set(rd, value, next)
    }

    fn shift(&mut self, op: ShiftOp, rd: u8, rs1: u8, amount: u8) -> StepEnd
        requires fits { InstrFits (Instr.Shift op rd rs1 amount) }
        requires within { self.old.pc < 2 ^ 32 }
        ensures exact { next_of result self.new
            ≡ counted_next (executed (Instr.Shift op rd rs1 amount) self.old) }
        ensures kept { StaysUnlessRetired result self.old self.new }
    {
        let next = self.pc() + 4;
        let value = arithmetic::shift(op, self.register(rs1), amount);
        self.set(rd, value, next)
    }

    fn op(&mut self, op: AluOp, rd: u8, rs1: u8, rs2: u8) -> StepEnd
        requires fits { InstrFits (Instr.Op op rd rs1 rs2) }
        requires within { self.old.pc < 2 ^ 32 }
        ensures exact { next_of result self.new
            ≡ counted_next (executed (Instr.Op op rd rs1 rs2) self.old) }
        ensures kept { StaysUnlessRetired result self.old self.new }
    {
        let next = self.pc() + 4;
        let value = arithmetic::alu(op, self.register(rs1), self.register(rs2));
        self.set(rd, value, next)
    }

    fn shift_word(&mut self, op: ShiftWordOp, rd: u8, rs1: u8, amount: u8) -> StepEnd
        requires fits { InstrFits (Instr.ShiftWord op rd rs1 amount) }
        requires within { self.old.pc < 2 ^ 32 }
        ensures exact { next_of result self.new
            ≡ counted_next (executed (Instr.ShiftWord op rd rs1 amount) self.old) }
        ensures kept { StaysUnlessRetired result self.old self.new }
    {
        let next = self.pc() + 4;
        let value = arithmetic::shift_word(op, self.register(rs1), amount);
        self.set(rd, value, next)
    }

    fn op_word(&mut self, op: AluWordOp, rd: u8, rs1: u8, rs2: u8) -> StepEnd
        requires fits { InstrFits (Instr.OpWord op rd rs1 rs2) }
        requires within { self.old.pc < 2 ^ 32 }
        ensures exact { next_of result self.new
            ≡ counted_next (executed (Instr.OpWord op rd rs1 rs2) self.old) }
        ensures kept { StaysUnlessRetired result self.old self.new }
    {
        let next = self.pc() + 4;
        let value = arithmetic::alu_word(op, self.register(rs1), self.register(rs2));
        self.set(rd, value, next)
    }
}
