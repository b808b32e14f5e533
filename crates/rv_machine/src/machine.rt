//! The state of the machine, and what reads and sets it.
ghost use Rattle.std.specs.Prelude.{◌≡◌, ◌+◌, ◌-◌, ◌*◌, ◌/◌, ◌^◌, ◌<◌, ◌≤◌, [], true, slice_index, IfSome};
ghost use Rattle.image_form.specs.Image.{IsImage};
ghost use Rattle.image_form.specs.Tables.{tables};
ghost use Rattle.rv_machine.specs.Hart.{Hart, register, fetch, readable, sets, goes_to};
ghost use Rattle.rv_machine.specs.Loading.{IsRoom};
ghost use Rattle.rv_machine.specs.Memory.{loaded_number, stored_number};
ghost use Rattle.rv_machine.specs.Space.{IsSpace};
ghost use Rattle.rv_machine.specs.Start.{idle};
ghost use Rattle.std.specs.Vec.{vec_capacity};
ghost use Rattle.bs_words.specs.Memory.{IsWidth};
ghost use Rattle.rv_machine.specs.Step.{with_retired_counted, counted_next, next_of, StaysUnlessRetired, Stores, registers_after};
ghost use Rattle.rv_machine.specs.Services.{cleared, returned_with};
ghost use Rattle.rv_machine.specs.FrameCalls.{has_trap_frame, raised};
ghost use Rattle.rv_machine.specs.Run.{asked};

use crate::blocks::BlockPlace;
use crate::code::{self, CODE_START};
use crate::memory::{Memory, is_aligned};
use crate::runtime::destroy;
use crate::space::Space;
use crate::start::{DOMAIN_START, STACK_BOTTOM, YOUNG_TOP};
use crate::step_end::StepEnd;
use image_form::Image;
use rv_isa::Register;
use std::marker::Model;

/// What a new machine has for its stack and its heap.
#[derive(Drop)]
pub(crate) struct Room {
    /// The lowest address that the stack pointer may have.
    pub stack_base: u64,
    /// The bytes of each half of the heap.
    pub heap: u64,
    /// Memory for the table of blocks, of which there are none yet. A block has 16 bytes at least.
    pub blocks: Vec<BlockPlace>,
    /// What moving blocks needs.
    pub space: Space,
}

/// The machine. Contracts see the state of its hart.
/// It borrows its image and decodes each word as it comes, so that there is no second way to run. A table
/// of decoded words, tried, takes a quarter of a step's time away.
#[derive(Drop)]
pub struct Machine<'a> {
    /// The image that it runs.
    pub image: &'a Image,
    /// x0 to x31.
    pub registers: [u64; 32],
    /// The address of the next instruction.
    pub pc: u64,
    /// The regions that may be written.
    pub memory: Memory,
    /// The lowest address that the stack pointer may have.
    pub stack_base: u64,
    /// The bytes of each half of the heap.
    pub heap: u64,
    /// The blocks by serial. `load` takes the memory of the whole table.
    pub blocks: Vec<BlockPlace>,
    /// How many instructions have retired.
    pub retired: u64,
    /// How many allocation services and frame calls have moved blocks.
    pub services: u64,
    /// What moving blocks needs.
    pub space: Space,
}

impl<'a> Model for Machine<'a> {
    ghost use Rattle.std.specs.Prelude.{◌≡◌, ◌≤◌, ◌*◌, ◌/◌, slice_index};
    ghost use Rattle.image_form.specs.Tables.{tables};
    ghost use Rattle.image_form.specs.Image.{IsImage};
    ghost use Rattle.rv_machine.specs.Hart.{Hart};

    ghost Value = { Hart };

    ghost view = { λ m. record {
      image = tables m.image.now;
      registers = m.registers;
      pc = m.pc;
      memory = m.memory;
      stack_base = m.stack_base;
      heap = m.heap;
      blocks = m.blocks.items;
      retired = m.retired;
      services = m.services;
    } };

    ghost use Rattle.std.specs.Vec.{vec_capacity};
    ghost use Rattle.rv_machine.specs.Space.{IsHeap, IsSpace};

    // x0 holds 0, so that it is read as the others are. The stack lies above the heap.
    ghost invariant = { λ m. (slice_index m.registers 0 ≡ 0) × IsImage m.image.now
        × IsHeap m.heap m.blocks.items × IsSpace m.heap m.space
        × (m.heap / 16 ≤ vec_capacity m.blocks)
        × (0x38010000 ≤ m.stack_base) × (m.stack_base ≤ 0x40000000) };
}

impl<'a> Machine<'a> {
    // A machine in which no instruction has retired and there is no block.
    pub(crate) fn new(
        image: &'a Image,
        registers: [u64; 32],
        pc: u64,
        memory: Memory,
        room: Room,
    ) -> Self
        requires zero { slice_index registers 0 ≡ 0 }
        requires rules { IsImage image.now }
        requires no_block { room.blocks.items ≡ [] }
        requires table { room.heap / 16 ≤ vec_capacity room.blocks }
        requires heap { IsRoom room.heap }
        requires ready { IsSpace room.heap room.space }
        requires above { 0x38010000 ≤ room.stack_base }
        requires below { room.stack_base ≤ 0x40000000 }
        ensures { result ≡ idle (tables image.now) registers pc memory room.stack_base room.heap }
    {
        Machine {
            image,
            registers,
            pc,
            memory,
            stack_base: room.stack_base,
            heap: room.heap,
            blocks: room.blocks,
            retired: 0,
            services: 0,
            space: room.space,
        }
    }

    /// How many instructions have retired.
    pub fn retired(&self) -> u64
        ensures { result ≡ self.now.retired }
    {
        self.retired
    }

    /// How many allocation services and frame calls have moved blocks.
    pub fn services(&self) -> u64
        ensures { result ≡ self.now.services }
    {
        self.services
    }

    /// The register `r`.
    pub fn register(&self, r: u8) -> u64
        requires { r < 32 }
        ensures { result ≡ register self.now r }
    {
        self.registers[r as usize]
    }

    /// The instruction word at the program counter, where the code has one there.
    pub fn fetch(&self) -> Option<u32>
        ensures exact { result ≡ fetch self.now.image.code self.now.pc }
        ensures within { IfSome result (λ _. self.now.pc < 2 ^ 32) }
    {
        if self.pc < CODE_START || self.pc % 4 != 0 {
            return None;
        }
        let index = (self.pc - CODE_START) / 4;
        self.image.code.get(index as usize).copied()
    }

    /// The program counter.
    pub fn pc(&self) -> u64
        ensures { result ≡ self.now.pc }
    {
        self.pc
    }

    // The next instruction is at `address`, and nothing else changes.
    pub(crate) fn go_to(&mut self, address: u64) -> StepEnd
        ensures exact { next_of result self.new ≡ counted_next (goes_to address self.old) }
        ensures kept { StaysUnlessRetired result self.old self.new }
    {
        self.pc = address;
        self.retired = self.retired.saturating_add(1);
        StepEnd::Retired
    }

    // Register `rd` becomes `value`, and the next instruction is at `address`.
    pub(crate) fn set(&mut self, rd: u8, value: u64, address: u64) -> StepEnd
        requires number { rd < 32 }
        ensures exact { next_of result self.new ≡ counted_next (sets rd value address self.old) }
        ensures kept { StaysUnlessRetired result self.old self.new }
    {
        if rd == Register::Sp as u8 && value < self.stack_base {
            return StepEnd::StackOut;
        }
        if rd != 0 {
            self.registers[rd as usize] = value;
        }
        self.pc = address;
        self.retired = self.retired.saturating_add(1);
        StepEnd::Retired
    }

    // The number in `width` bytes at an address, where that is aligned and may be read.
    pub(crate) fn loaded(&self, address: u64, width: u64) -> Option<u64>
        requires { IsWidth width }
        ensures exact { result ≡ loaded_number (readable self.now) address width }
        ensures below { IfSome result (λ n. n < 2 ^ (8 * width)) }
    {
        if !is_aligned(address, width) {
            return None;
        }
        if code::has(&self.image.code, address, width) {
            return Some(code::read(&self.image.code, address, width));
        }
        self.memory.read(address, width)
    }

    // Writes the lowest `width` bytes of `value` at an address; reports whether it is aligned and may be
    // written.
    pub(crate) fn stored(&mut self, address: u64, width: u64, value: u64) -> bool
        requires { IsWidth width }
        ensures { Stores result (stored_number self.old.memory address width value) self.old self.new }
    {
        self.memory.store(address, width, value)
    }

    /// The image that the machine runs.
    pub fn image(&self) -> &'a Image
        ensures same { tables result.now ≡ self.now.image }
        ensures rules { IsImage result.now }
    {
        self.image
    }

    pub(crate) fn memory(&self) -> &Memory
        ensures { result.now ≡ self.now.memory }
    {
        &self.memory
    }

    pub(crate) fn blocks(&self) -> &[BlockPlace]
        ensures { result.now ≡ self.now.blocks }
    {
        self.blocks.as_slice()
    }

    /// The mover asks: the limit word is set.
    pub fn ask(&mut self)
        ensures { self.new ≡ asked self.old }
    {
        let _ = self.memory.write(DOMAIN_START, 8, YOUNG_TOP);
    }

    /// Goes on after an external call with its answer, if it has one.
    pub fn finish_call(&mut self, answer: Option<u64>)
        requires near { self.old.pc < 2 ^ 32 }
        ensures { self.new
            ≡ with_retired_counted (returned_with (registers_after answer self.old.registers) self.old) }
    {
        destroy(&mut self.registers);
        if let Some(answer) = answer {
            self.registers[Register::A0 as usize] = answer;
        }
        self.pc += 4;
        self.retired = self.retired.saturating_add(1);
    }

    /// Whether s1 points at a trap frame: at two words of the stack's region.
    pub fn has_trap_frame(&self) -> bool
        ensures { result ≡ has_trap_frame self.now }
    {
        let at = self.registers[Register::S1 as usize];
        at % 8 == 0 && self.stack_base <= at && at <= STACK_BOTTOM
    }

    /// Goes on after a frame call that raises a value, at the address in the innermost trap frame.
    pub fn raise(&mut self, value: u64)
        requires { has_trap_frame self.old ≡ true }
        ensures { self.new ≡ with_retired_counted (raised value (cleared self.old)) }
    {
        destroy(&mut self.registers);
        let at = self.registers[Register::S1 as usize];
        self.registers[Register::Sp as usize] = at + 16;
        self.registers[Register::S1 as usize] = self.memory.word(at + 8);
        self.registers[Register::A0 as usize] = value;
        self.pc = self.memory.word(at);
        self.retired = self.retired.saturating_add(1);
    }
}
