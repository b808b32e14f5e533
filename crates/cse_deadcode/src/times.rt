//! When what an instruction does was done last.
ghost use Rattle.std.specs.Prelude.{◌≡◌, cond, IfOk};
ghost use Rattle.std.specs.List.{list_any};
ghost use Rattle.cse_deadcode.specs.declared.events.Event.{Event};
ghost use Rattle.cse_deadcode.specs.Times.{is_same, writes_place, writes, operation_event, happens_by, happens, time_in};

use crate::events::{Computed, Event, computation};
use bs_words::Loc;
use mach_ir::{Access, Instr, MachOp, NumberTable, Op, Pure, Reg};
use std::alloc::{AllocError, Global};
use std::collections::BTreeMap;

/// What the operation does beside its writes, if it counts.
fn event_of(op: &MachOp, args: &[Reg]) -> Option<Event>
    ensures { result ≡ operation_event op.now args.now }
{
    match op {
        MachOp::Op(Op::Pure(Pure::Operator(operator, right))) => {
            Some(Event::Computes(computation(*operator, *right, args)))
        }
        MachOp::Op(Op::Pure(Pure::Copy(_))) => None,
        MachOp::Op(Op::Pure(Pure::Constant(_))) => None,
        MachOp::Op(Op::Pure(Pure::Symbol(_))) => None,
        MachOp::Op(Op::Access(Access::Alloc(_))) => Some(Event::Allocates),
        MachOp::Op(
            Op::Access(
                Access::Load {
                    chunk: _,
                    offset: _,
                },
            ),
        ) => None,
        MachOp::Op(
            Op::Access(
                Access::Store {
                    chunk: _,
                    offset: _,
                },
            ),
        ) => None,
        MachOp::Op(Op::Calling(_)) => Some(Event::EndsRun),
        MachOp::Op(Op::Leaving(_)) => Some(Event::EndsRun),
        MachOp::Mark(_) => Some(Event::EndsRun),
    }
}

/// For each event the place of the last instruction in which it happened, counted from 1.
///
/// What one number names is in a table by it, and only what is computed in a map, since most of
/// what is noted and asked is of writes.
#[derive(Drop)]
pub struct Times {
    writes: NumberTable,
    origins: NumberTable,
    colours: NumberTable,
    slots: NumberTable,
    allocates: usize,
    ends_run: usize,
    computes: BTreeMap<Computed, usize>,
}

impl Times {
    /// Nothing has happened. It takes no memory.
    pub fn new(alloc: Global) -> Times
        ensures { (e : Event) → time_in result e ≡ 0 }
    {
        Times {
            writes: NumberTable::new(alloc),
            origins: NumberTable::new(alloc),
            colours: NumberTable::new(alloc),
            slots: NumberTable::new(alloc),
            allocates: 0,
            ends_run: 0,
            computes: BTreeMap::new(alloc),
        }
    }

    /// The place of the last instruction in which the event happened, counted from 1, or 0.
    pub fn last(&self, event: Event) -> usize
        ensures { result ≡ time_in self.now event }
    {
        match event {
            Event::EndsRun => self.ends_run,
            Event::Allocates => self.allocates,
            Event::Writes(number) => self.writes.get(number),
            Event::WritesOrigin(origin) => self.origins.get(origin),
            Event::WritesColour(colour) => self.colours.get(colour as u32),
            Event::WritesSlot(slot) => self.slots.get(slot),
            Event::Computes(computed) => match self.computes.get(&computed) {
                None => 0,
                Some(time) => *time,
            },
        }
    }

    fn note(&mut self, event: Event, time: usize) -> Result<(), AllocError>
        ensures { IfOk result (λ _. (e : Event) →
            time_in self.new e ≡ cond (is_same event e) time (time_in self.old e)) }
    {
        match event {
            Event::EndsRun => self.ends_run = time,
            Event::Allocates => self.allocates = time,
            Event::Writes(number) => self.writes.put(number, time)?,
            Event::WritesOrigin(origin) => self.origins.put(origin, time)?,
            Event::WritesColour(colour) => self.colours.put(colour as u32, time)?,
            Event::WritesSlot(slot) => self.slots.put(slot, time)?,
            Event::Computes(computed) => {
                self.computes.insert(computed, time)?;
            }
        }
        Ok(())
    }

    fn note_place(&mut self, place: Loc, time: usize) -> Result<(), AllocError>
        ensures { IfOk result (λ _. (e : Event) →
            time_in self.new e ≡ cond (writes_place e place) time (time_in self.old e)) }
    {
        match place {
            Loc::Unset => Ok(()),
            Loc::Machine(colour) => self.note(Event::WritesColour(colour), time),
            Loc::Slot(slot) => self.note(Event::WritesSlot(slot), time),
        }
    }

    fn note_register(&mut self, reg: &Reg, time: usize) -> Result<(), AllocError>
        ensures { IfOk result (λ _. (e : Event) →
            time_in self.new e ≡ cond (writes e reg.now) time (time_in self.old e)) }
    {
        self.note(Event::Writes(reg.number), time)?;
        self.note(Event::WritesOrigin(reg.origin), time)?;
        self.note_place(reg.loc, time)
    }

    fn note_registers(&mut self, regs: &[Reg], time: usize) -> Result<(), AllocError>
        ensures { IfOk result (λ _. (e : Event) →
            time_in self.new e ≡ cond (list_any (writes e) regs.now) time (time_in self.old e)) }
    {
        for reg in regs {
            self.note_register(reg, time)?;
        }
        Ok(())
    }

    fn note_op(&mut self, op: &MachOp, args: &[Reg], time: usize) -> Result<(), AllocError>
        ensures { IfOk result (λ _. (e : Event) →
            time_in self.new e ≡ cond (happens_by e op.now args.now) time (time_in self.old e)) }
    {
        match event_of(op, args) {
            None => Ok(()),
            Some(event) => self.note(event, time),
        }
    }

    /// Notes what the instruction does. After an error nothing is known of the times.
    pub fn note_instr(&mut self, instr: &Instr, time: usize) -> Result<(), AllocError>
        ensures { IfOk result (λ _. (e : Event) →
            time_in self.new e ≡ cond (happens e instr.now) time (time_in self.old e)) }
    {
        self.note_op(&instr.op, instr.args.as_slice(), time)?;
        self.note_registers(instr.results.as_slice(), time)
    }
}
