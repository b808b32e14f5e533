//! A Mach function, run.

use bs_words::{Comp, Loc, Value};
use mach_ir::{Calling, Instr, Label, Leaving, Mach, MachOp, Mark, Op, Reg};
use rows_worlds::{End, Holding, Next, World, destroys, is_frame_point};
use std::alloc::{AllocError, Global};

/// The number of registers; a number from here on is none.
const REGISTERS: u32 = 64;

/// What a register holds, and the component that it was written with.
#[derive(Clone, Copy)]
struct Held {
    comp: Comp,
    value: Value,
}

/// Registers by number. One that is not there has not been written.
#[derive(Drop)]
struct Registers {
    held: Vec<Option<Held>>,
}

impl Registers {
    fn new(alloc: Global) -> Result<Self, AllocError> {
        let mut held = Vec::new(alloc);
        for _ in 0..REGISTERS {
            held.push(None)?;
        }
        Ok(Registers { held })
    }

    fn get(&self, number: u32) -> Option<Held> {
        match self.held.get(number as usize) {
            Some(held) => *held,
            None => None,
        }
    }

    fn set(&mut self, number: u32, held: Option<Held>) {
        if let Some(place) = self.held.get_mut(number as usize) {
            *place = held;
        }
    }

    fn values(&self, alloc: Global, regs: &[Reg]) -> Result<Option<Vec<Value>>, AllocError> {
        let mut values = Vec::new(alloc);
        for reg in regs {
            match self.get(reg.number) {
                Some(held) => values.push(held.value)?,
                None => return Ok(None),
            }
        }
        Ok(Some(values))
    }

    fn lose_addresses(&mut self) {
        for number in 0..REGISTERS {
            if let Some(held) = self.get(number) {
                if held.comp == Comp::Addr {
                    self.set(number, None);
                }
            }
        }
    }
}

// ---- places

/// The label after which control goes on, if a mark has one.
fn label_of(mark: &Mark) -> Option<Label> {
    match mark {
        Mark::Else { label, end: _ } => Some(*label),
        Mark::Case { label, .. } => Some(*label),
        Mark::With { label, end: _ } => Some(*label),
        Mark::End { label } => Some(*label),
        Mark::Exit { .. } | Mark::If { .. } | Mark::Switch(_) | Mark::Catch => None,
        Mark::Try { .. } | Mark::Leave { .. } | Mark::Handler { .. } => None,
    }
}

/// The label of the handler whose entry a mark is.
fn handler_of(mark: &Mark) -> Option<Label> {
    match mark {
        Mark::Handler { label } => Some(*label),
        Mark::Exit { .. } | Mark::If { .. } | Mark::Else { .. } => None,
        Mark::Switch(_) | Mark::Case { .. } => None,
        Mark::Catch | Mark::With { .. } => None,
        Mark::Try { .. } | Mark::Leave { .. } | Mark::End { .. } => None,
    }
}

/// Whether there is a label, with this number.
fn is_label(label: Option<Label>, wanted: u32) -> bool {
    match label {
        Some(label) => label.0 == wanted,
        None => false,
    }
}

fn is_labelled(op: &MachOp, wanted: u32) -> bool {
    match op {
        MachOp::Mark(mark) => is_label(label_of(mark), wanted),
        MachOp::Op(_) => false,
    }
}

fn is_handler(op: &MachOp, wanted: u32) -> bool {
    match op {
        MachOp::Mark(mark) => is_label(handler_of(mark), wanted),
        MachOp::Op(_) => false,
    }
}

/// The place after the mark that has a label; the end of the code where there is none.
fn behind_label(code: &[Instr], label: u32) -> usize {
    for (place, instr) in code.iter().enumerate() {
        if is_labelled(&instr.op, label) {
            return place.wrapping_add(1);
        }
    }
    code.len()
}

/// The place of a handler.
fn handler_place(code: &[Instr], label: u32) -> usize {
    for (place, instr) in code.iter().enumerate() {
        if is_handler(&instr.op, label) {
            return place;
        }
    }
    code.len()
}

// ---- what is live

/// Keeps the handlers of the tries that are open after a mark.
fn passes_mark(open: &mut Vec<u32>, mark: &Mark) -> Result<(), AllocError> {
    match mark {
        Mark::Try { handler } => open.push(handler.0)?,
        Mark::Leave { .. } => {
            open.pop();
        }
        Mark::Exit { .. } | Mark::If { .. } | Mark::Else { .. } => {}
        Mark::Switch(_) | Mark::Case { .. } => {}
        Mark::Catch | Mark::With { .. } => {}
        Mark::Handler { .. } | Mark::End { .. } => {}
    }
    Ok(())
}

/// The handlers of the innermost tries, place by place, by the text.
fn handlers_of(alloc: Global, code: &[Instr]) -> Result<Vec<Option<u32>>, AllocError> {
    let mut open: Vec<u32> = Vec::new(alloc);
    let mut handlers = Vec::new(alloc);
    for instr in code {
        handlers.push(open.as_slice().last().copied())?;
        match &instr.op {
            MachOp::Mark(mark) => passes_mark(&mut open, mark)?,
            MachOp::Op(_) => {}
        }
    }
    Ok(handlers)
}

fn goes_on(op: &Op) -> bool {
    match op {
        Op::Calling(Calling::TailCall { .. }) => false,
        Op::Calling(Calling::Call { .. } | Calling::External { .. }) => true,
        Op::Leaving(Leaving::Checkbound(_)) => true,
        Op::Leaving(Leaving::Raise | Leaving::Return) => false,
        Op::Pure(_) | Op::Access(_) => true,
    }
}

/// Whether it may raise to a handler of the function.
fn may_raise(op: &MachOp) -> bool {
    match op {
        MachOp::Op(Op::Calling(Calling::Call { .. })) => true,
        MachOp::Op(Op::Calling(Calling::TailCall { .. })) => false,
        MachOp::Op(Op::Calling(Calling::External { row: _, frame })) => *frame,
        MachOp::Op(Op::Leaving(Leaving::Checkbound(_) | Leaving::Raise)) => true,
        MachOp::Op(Op::Leaving(Leaving::Return)) => false,
        MachOp::Op(Op::Pure(_) | Op::Access(_)) => false,
        MachOp::Mark(_) => false,
    }
}

fn is_among(number: u32, regs: &[Reg]) -> bool {
    for reg in regs {
        if reg.number == number {
            return true;
        }
    }
    false
}

fn stands_at(regs: &[Reg], loc: Loc) -> bool {
    for reg in regs {
        if reg.loc == loc {
            return true;
        }
    }
    false
}

/// Whether an operation destroys this place, or the entry of a handler does.
fn destroys_at(op: &MachOp, loc: Loc) -> bool {
    match loc {
        Loc::Machine(register) => match op {
            MachOp::Op(op) => destroys(op, register),
            MachOp::Mark(mark) => handler_of(mark).is_some(),
        },
        Loc::Unset | Loc::Slot(_) => false,
    }
}

/// Whether an instruction writes the register, with a value or as one that is destroyed.
fn writes(function: &Mach, instr: &Instr, number: u32) -> bool {
    if is_among(number, instr.results.as_slice()) {
        return true;
    }
    for reg in function.colours.as_slice() {
        if reg.number == number
            && destroys_at(&instr.op, reg.loc)
            && !stands_at(instr.results.as_slice(), reg.loc)
        {
            return true;
        }
    }
    false
}

/// For each place whether a walk from there reads a register before it writes it.
#[derive(Drop)]
struct Live {
    at: Vec<bool>,
}

impl Live {
    fn is_at(&self, place: usize) -> bool {
        match self.at.get(place) {
            Some(is_live) => *is_live,
            None => false,
        }
    }

    fn is_behind(&self, code: &[Instr], place: usize, instr: &Instr) -> bool {
        let next = place.wrapping_add(1);
        match &instr.op {
            MachOp::Op(op) => goes_on(op) && self.is_at(next),
            MachOp::Mark(Mark::Exit { label, tries: _ }) => self.is_at(behind_label(code, label.0)),
            MachOp::Mark(Mark::If { test: _, otherwise }) => {
                self.is_at(next) || self.is_at(behind_label(code, otherwise.0))
            }
            MachOp::Mark(Mark::Switch(labels)) => self.is_behind_one(code, labels.as_slice()),
            MachOp::Mark(Mark::Else { label: _, end }) => self.is_at(behind_label(code, end.0)),
            MachOp::Mark(Mark::Case { end, .. }) => self.is_at(behind_label(code, end.0)),
            MachOp::Mark(Mark::With { label: _, end }) => self.is_at(behind_label(code, end.0)),
            MachOp::Mark(Mark::Leave { handler: _, end }) => self.is_at(behind_label(code, end.0)),
            MachOp::Mark(Mark::Catch) => self.is_at(next),
            MachOp::Mark(Mark::Try { .. }) => self.is_at(next),
            MachOp::Mark(Mark::Handler { .. }) => self.is_at(next),
            MachOp::Mark(Mark::End { .. }) => self.is_at(next),
        }
    }

    fn is_behind_one(&self, code: &[Instr], labels: &[Label]) -> bool {
        for label in labels {
            if self.is_at(behind_label(code, label.0)) {
                return true;
            }
        }
        false
    }

    fn is_at_handler(&self, code: &[Instr], instr: &Instr, handler: Option<u32>) -> bool {
        match handler {
            Some(label) => may_raise(&instr.op) && self.is_at(handler_place(code, label)),
            None => false,
        }
    }
}

/// Where a register is live: as many sweeps as there are places.
fn live_of(alloc: Global, function: &Mach, number: u32) -> Result<Live, AllocError> {
    let code = function.code.as_slice();
    let handlers = handlers_of(alloc, code)?;
    let mut live = Live {
        at: Vec::new(alloc),
    };
    for _ in code {
        live.at.push(false)?;
    }
    for _ in code {
        let mut at = Vec::new(alloc);
        for (place, instr) in code.iter().enumerate() {
            let handler = match handlers.get(place) {
                Some(handler) => *handler,
                None => None,
            };
            let is_read = is_among(number, instr.args.as_slice());
            let passes = !writes(function, instr, number) && live.is_behind(code, place, instr);
            at.push(is_read || passes || live.is_at_handler(code, instr, handler))?;
        }
        live.at = at;
    }
    Ok(live)
}

// ---- a run

/// A function with its world and its registers.
#[derive(Drop)]
pub struct Machine<'a, 'b> {
    function: &'b Mach,
    /// What is round it.
    pub world: World<'a>,
    registers: Registers,
    /// Every register of the function, and the places at which it is live.
    live: Vec<(Reg, Live)>,
    handlers: Vec<Option<u32>>,
    place: usize,
    /// What the last instruction wrote.
    just_written: Vec<u32>,
}

fn add_registers(
    alloc: Global,
    function: &Mach,
    live_at: &mut Vec<(Reg, Live)>,
    regs: &[Reg],
) -> Result<(), AllocError> {
    for reg in regs {
        let mut is_new = true;
        for known in live_at.as_slice() {
            is_new = is_new && known.0.number != reg.number;
        }
        if is_new {
            live_at.push((*reg, live_of(alloc, function, reg.number)?))?;
        }
    }
    Ok(())
}

impl<'a, 'b> Machine<'a, 'b> {
    /// The function before its entry. The only error is want of memory.
    pub fn new(function: &'b Mach, world: World<'a>) -> Result<Self, AllocError> {
        let alloc = world.alloc;
        let mut live_at = Vec::new(alloc);
        add_registers(alloc, function, &mut live_at, function.params.as_slice())?;
        add_registers(alloc, function, &mut live_at, function.colours.as_slice())?;
        for instr in function.code.as_slice() {
            add_registers(alloc, function, &mut live_at, instr.args.as_slice())?;
            add_registers(alloc, function, &mut live_at, instr.results.as_slice())?;
        }
        Ok(Machine {
            function,
            world,
            registers: Registers::new(alloc)?,
            live: live_at,
            handlers: handlers_of(alloc, function.code.as_slice())?,
            place: 0,
            just_written: Vec::new(alloc),
        })
    }

    /// Writes values to registers. False where one does not fit.
    fn write(&mut self, regs: &[Reg], values: &[Value]) -> Result<bool, AllocError> {
        if regs.len() != values.len() {
            return Ok(false);
        }
        for (reg, value) in regs.iter().zip(values) {
            if !self.world.fits(reg.comp, *value) {
                return Ok(false);
            }
            let (comp, value) = (reg.comp, *value);
            self.registers.set(reg.number, Some(Held { comp, value }));
            self.just_written.push(reg.number)?;
        }
        Ok(true)
    }

    /// What the operation destroys holds nothing any more.
    fn destroy(&mut self, instr: &Instr) -> Result<(), AllocError> {
        for reg in self.function.colours.as_slice() {
            if destroys_at(&instr.op, reg.loc) && !stands_at(instr.results.as_slice(), reg.loc) {
                self.registers.set(reg.number, None);
                self.just_written.push(reg.number)?;
            }
        }
        Ok(())
    }

    /// At a frame point each val that is live across it has been written.
    fn vals_are_written(&self, instr: &Instr) -> bool {
        let handler = match self.handlers.get(self.place) {
            Some(handler) => *handler,
            None => None,
        };
        for (reg, live) in self.live.as_slice() {
            let code = self.function.code.as_slice();
            let behind = !writes(self.function, instr, reg.number)
                && live.is_behind(code, self.place, instr);
            let is_live = behind || live.is_at_handler(code, instr, handler);
            if reg.comp == Comp::Val && is_live && self.registers.get(reg.number).is_none() {
                return false;
            }
        }
        true
    }

    fn counts(&self, reg: Reg, live: &Live) -> bool {
        live.is_at(self.place) || self.just_written.as_slice().contains(&reg.number)
    }

    fn differ(&self, one: Reg, other: Reg) -> bool {
        let one = self.registers.get(one.number);
        let other = self.registers.get(other.number);
        match (one, other) {
            (Some(one), Some(other)) => one.value != other.value,
            (None, _) | (_, None) => false,
        }
    }

    /// Registers of one origin, each live here or just written, hold one value.
    fn origins_agree(&self) -> bool {
        for (one, live_one) in self.live.as_slice() {
            for (other, live_other) in self.live.as_slice() {
                let counts = self.counts(*one, live_one) && self.counts(*other, live_other);
                if one.origin == other.origin && counts && self.differ(*one, *other) {
                    return false;
                }
            }
        }
        true
    }

    fn mark(
        &mut self,
        mark: &Mark,
        args: &[Value],
        results: &mut Vec<Value>,
    ) -> Result<Next, AllocError> {
        let stuck = Ok(Next::Over(End::Stuck));
        match mark {
            Mark::Exit { label, tries } => {
                self.world.pays();
                self.world.drop_tries(*tries);
                Ok(Next::To(label.0))
            }
            Mark::If { test, otherwise } => match self.world.holds(*test, args) {
                Holding::Holds => Ok(Next::On),
                Holding::Fails => Ok(Next::To(otherwise.0)),
                Holding::Stuck => stuck,
            },
            Mark::Switch(labels) => Ok(self.world.case(labels.as_slice(), args)),
            Mark::Else { label: _, end } => Ok(Next::To(end.0)),
            Mark::Case { end, .. } => Ok(Next::To(end.0)),
            Mark::With { label: _, end } => Ok(Next::To(end.0)),
            Mark::Try { handler } => {
                self.world.tries.push(handler.0)?;
                Ok(Next::On)
            }
            Mark::Leave { handler: _, end } => {
                self.world.drop_tries(1);
                Ok(Next::To(end.0))
            }
            Mark::Handler { .. } => match self.world.raised.take() {
                Some(value) => {
                    results.push(value)?;
                    Ok(Next::On)
                }
                None => stuck,
            },
            Mark::Catch => Ok(Next::On),
            Mark::End { .. } => Ok(Next::On),
        }
    }

    /// At a frame point addresses are lost, and each val that is live across it has been written.
    fn passes_frame(&mut self, instr: &Instr) -> bool {
        let is_written = self.vals_are_written(instr);
        self.registers.lose_addresses();
        is_written
    }

    /// What the operation of an instruction does, once its operands are read.
    fn does(
        &mut self,
        instr: &Instr,
        args: &[Value],
        results: &mut Vec<Value>,
    ) -> Result<Next, AllocError> {
        match &instr.op {
            MachOp::Mark(mark) => self.mark(mark, args, results),
            MachOp::Op(op) => {
                if is_frame_point(op) && !self.passes_frame(instr) {
                    return Ok(Next::Over(End::Stuck));
                }
                self.world.does(op, args, results)
            }
        }
    }

    /// Reads the operands, and does the operation.
    fn acts(&mut self, instr: &Instr, results: &mut Vec<Value>) -> Result<Next, AllocError> {
        let args = self
            .registers
            .values(self.world.alloc, instr.args.as_slice())?;
        match args {
            Some(args) => self.does(instr, args.as_slice(), results),
            None => Ok(Next::Over(End::Stuck)),
        }
    }

    /// Writes the results, once the operation has destroyed what it destroys. False where one does not fit, or registers
    /// of one origin then differ.
    fn finishes(&mut self, instr: &Instr, results: &[Value]) -> Result<bool, AllocError> {
        self.destroy(instr)?;
        let fits = self.write(instr.results.as_slice(), results)?;
        Ok(fits && self.origins_agree())
    }

    fn goes(
        &mut self,
        instr: &Instr,
        next: Next,
        results: &[Value],
    ) -> Result<Option<End>, AllocError> {
        let function = self.function;
        let code = function.code.as_slice();
        let goes_on = match next {
            Next::Over(end) => return Ok(Some(end)),
            Next::Handler(label) => {
                self.place = handler_place(code, label);
                self.origins_agree()
            }
            Next::On => {
                self.place = self.place.wrapping_add(1);
                self.finishes(instr, results)?
            }
            Next::To(label) => {
                self.place = behind_label(code, label);
                self.finishes(instr, results)?
            }
        };
        Ok(if goes_on { None } else { Some(End::Stuck) })
    }

    /// One instruction. None where the run goes on.
    fn step(&mut self) -> Result<Option<End>, AllocError> {
        let function = self.function;
        let Some(instr) = function.code.as_slice().get(self.place) else {
            return Ok(Some(End::Stuck));
        };
        self.just_written = Vec::new(self.world.alloc);
        let mut results = Vec::new(self.world.alloc);
        let next = self.acts(instr, &mut results)?;
        self.goes(instr, next, results.as_slice())
    }

    /// The run from the entry, in at most so many steps. The only error is want of memory.
    pub fn run(&mut self, args: &[Value], fuel: u32) -> Result<End, AllocError> {
        if !self.write(self.function.params.as_slice(), args)? {
            return Ok(End::Stuck);
        }
        for _ in 0..fuel {
            if let Some(end) = self.step()? {
                return Ok(end);
            }
        }
        Ok(End::Runs)
    }
}
