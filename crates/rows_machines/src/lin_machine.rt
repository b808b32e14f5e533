//! A Linear function, run.

use bs_words::{Loc, Value};
use lin_ir::{Flow, Lin, LinOp, Line, Spot};
use mach_ir::Label;
use rows_worlds::{End, Holding, Next, World, destroys, is_frame_point};
use std::alloc::{AllocError, Global};

/// What locations hold: one that is not among them is poison, or has not been written.
#[derive(Drop)]
struct Locations {
    alloc: Global,
    held: Vec<(Loc, Value)>,
}

impl Locations {
    fn get(&self, loc: Loc) -> Option<Value> {
        for (place, value) in self.held.as_slice() {
            if *place == loc {
                return Some(*value);
            }
        }
        None
    }

    fn lose(&mut self, loc: Loc) -> Result<(), AllocError> {
        let mut held = Vec::new(self.alloc);
        for (place, value) in self.held.as_slice() {
            if *place != loc {
                held.push((*place, *value))?;
            }
        }
        self.held = held;
        Ok(())
    }

    fn set(&mut self, loc: Loc, value: Value) -> Result<(), AllocError> {
        self.lose(loc)?;
        self.held.push((loc, value))?;
        Ok(())
    }

    /// Pointers to blocks that are not named are poison.
    fn poison(&mut self, named: &[Loc]) -> Result<(), AllocError> {
        let mut held = Vec::new(self.alloc);
        for (place, value) in self.held.as_slice() {
            if named.contains(place) || !is_pointer(*value) {
                held.push((*place, *value))?;
            }
        }
        self.held = held;
        Ok(())
    }

    /// What an operation destroys is lost.
    fn destroy(&mut self, op: &LinOp) -> Result<(), AllocError> {
        let mut held = Vec::new(self.alloc);
        for (place, value) in self.held.as_slice() {
            if !destroys_at(op, *place) {
                held.push((*place, *value))?;
            }
        }
        self.held = held;
        Ok(())
    }
}

/// Whether a value points into a block.
fn is_pointer(value: Value) -> bool {
    match value {
        Value::Block { .. } => true,
        Value::Word(_) | Value::Function(_) => false,
    }
}

/// Whether it is the entry of a handler.
fn enters_handler(flow: &Flow) -> bool {
    match flow {
        Flow::EnterTrap => true,
        Flow::Label(_) | Flow::Jump(_) | Flow::Exit(_) => false,
        Flow::Branch { .. } | Flow::Switch(_) => false,
        Flow::PushTrap(_) | Flow::PopTrap => false,
    }
}

/// Whether an operation destroys this place, or the entry of a handler does.
fn destroys_at(op: &LinOp, loc: Loc) -> bool {
    match loc {
        Loc::Machine(register) => match op {
            LinOp::Op(op) => destroys(op, register),
            LinOp::Flow(flow) => enters_handler(flow),
        },
        Loc::Unset | Loc::Slot(_) => false,
    }
}

/// The label whose place this is.
fn label_of(op: &LinOp) -> Option<Label> {
    match op {
        LinOp::Flow(Flow::Label(label)) => Some(*label),
        LinOp::Flow(Flow::Jump(_) | Flow::Exit(_)) => None,
        LinOp::Flow(Flow::Branch { .. } | Flow::Switch(_)) => None,
        LinOp::Flow(Flow::PushTrap(_) | Flow::PopTrap | Flow::EnterTrap) => None,
        LinOp::Op(_) => None,
    }
}

/// The place after a label; the end of the code where there is none.
fn behind_label(code: &[Line], wanted: u32) -> usize {
    for (place, line) in code.iter().enumerate() {
        match label_of(&line.op) {
            Some(label) if label.0 == wanted => return place.wrapping_add(1),
            Some(_) | None => {}
        }
    }
    code.len()
}

/// Whether a line is a frame point that is no tail call.
fn is_frame_line(line: &Line) -> bool {
    match &line.op {
        LinOp::Op(op) => is_frame_point(op),
        LinOp::Flow(_) => false,
    }
}

/// A function with its world, its locations, and what the descriptors name.
#[derive(Drop)]
pub struct Machine<'a, 'b> {
    function: &'b Lin,
    /// What each frame point names, in the order of the text.
    named: &'b [Vec<Loc>],
    /// What is round it.
    pub world: World<'a>,
    locations: Locations,
    place: usize,
}

impl<'a, 'b> Machine<'a, 'b> {
    /// The function before its entry, where each frame point names these locations, in the order of the text.
    pub fn new(function: &'b Lin, named: &'b [Vec<Loc>], world: World<'a>) -> Self {
        let alloc = world.alloc;
        Machine {
            function,
            named,
            world,
            locations: Locations {
                alloc,
                held: Vec::new(alloc),
            },
            place: 0,
        }
    }

    /// Writes values. False where one does not fit.
    fn write(&mut self, spots: &[Spot], values: &[Value]) -> Result<bool, AllocError> {
        if spots.len() != values.len() {
            return Ok(false);
        }
        for (spot, value) in spots.iter().zip(values) {
            if !self.world.fits(spot.comp, *value) {
                return Ok(false);
            }
            self.locations.set(spot.loc, *value)?;
        }
        Ok(true)
    }

    /// What locations hold, if each fits the type of its read.
    fn values(&self, spots: &[Spot]) -> Result<Option<Vec<Value>>, AllocError> {
        let mut values = Vec::new(self.world.alloc);
        for spot in spots {
            match self.locations.get(spot.loc) {
                Some(value) if self.world.fits(spot.comp, value) => values.push(value)?,
                Some(_) | None => return Ok(None),
            }
        }
        Ok(Some(values))
    }

    /// What the frame point at this place names: how many frame points are before it shows which.
    fn named_here(&self) -> &'b [Loc] {
        let mut before: usize = 0;
        for (place, line) in self.function.code.as_slice().iter().enumerate() {
            if place < self.place && is_frame_line(line) {
                before = before.wrapping_add(1);
            }
        }
        match self.named.get(before) {
            Some(named) => named.as_slice(),
            None => &[],
        }
    }

    /// Whether each named location holds a val.
    fn are_vals(&self, named: &[Loc]) -> bool {
        for loc in named {
            match self.locations.get(*loc) {
                Some(value) if self.world.is_val(value) => {}
                Some(_) | None => return false,
            }
        }
        true
    }

    fn flow(
        &mut self,
        flow: &Flow,
        args: &[Value],
        results: &mut Vec<Value>,
    ) -> Result<Next, AllocError> {
        match flow {
            Flow::Label(_) => Ok(Next::On),
            Flow::Jump(label) => Ok(Next::To(label.0)),
            Flow::Exit(label) => {
                self.world.pays();
                Ok(Next::To(label.0))
            }
            Flow::Branch { test, label } => match self.world.holds(*test, args) {
                Holding::Holds => Ok(Next::To(label.0)),
                Holding::Fails => Ok(Next::On),
                Holding::Stuck => Ok(Next::Over(End::Stuck)),
            },
            Flow::Switch(labels) => Ok(self.world.case(labels.as_slice(), args)),
            Flow::PushTrap(label) => {
                self.world.tries.push(label.0)?;
                Ok(Next::On)
            }
            Flow::PopTrap => {
                self.world.drop_tries(1);
                Ok(Next::On)
            }
            Flow::EnterTrap => match self.world.raised.take() {
                Some(value) => {
                    results.push(value)?;
                    Ok(Next::On)
                }
                None => Ok(Next::Over(End::Stuck)),
            },
        }
    }

    /// At a frame point what is named holds vals, and other pointers become poison. False where a name is wrong.
    fn passes_frame(&mut self) -> Result<bool, AllocError> {
        let named = self.named_here();
        if !self.are_vals(named) {
            return Ok(false);
        }
        self.locations.poison(named)?;
        Ok(true)
    }

    /// What the operation of a line does, once its operands are read.
    fn does(
        &mut self,
        line: &Line,
        args: &[Value],
        results: &mut Vec<Value>,
    ) -> Result<Next, AllocError> {
        match &line.op {
            LinOp::Flow(flow) => self.flow(flow, args, results),
            LinOp::Op(op) => {
                if is_frame_point(op) && !self.passes_frame()? {
                    return Ok(Next::Over(End::Stuck));
                }
                self.world.does(op, args, results)
            }
        }
    }

    /// Reads the operands, and does the operation.
    fn acts(&mut self, line: &Line, results: &mut Vec<Value>) -> Result<Next, AllocError> {
        match self.values(line.args.as_slice())? {
            Some(args) => self.does(line, args.as_slice(), results),
            None => Ok(Next::Over(End::Stuck)),
        }
    }

    /// Writes the results, once the operation has destroyed what it destroys.
    fn finishes(&mut self, line: &Line, results: &[Value]) -> Result<Option<End>, AllocError> {
        self.locations.destroy(&line.op)?;
        if self.write(line.results.as_slice(), results)? {
            Ok(None)
        } else {
            Ok(Some(End::Stuck))
        }
    }

    fn goes(
        &mut self,
        line: &Line,
        next: Next,
        results: &[Value],
    ) -> Result<Option<End>, AllocError> {
        let function = self.function;
        let code = function.code.as_slice();
        match next {
            Next::Over(end) => Ok(Some(end)),
            Next::Handler(label) => {
                self.place = behind_label(code, label);
                Ok(None)
            }
            Next::On => {
                self.place = self.place.wrapping_add(1);
                self.finishes(line, results)
            }
            Next::To(label) => {
                self.place = behind_label(code, label);
                self.finishes(line, results)
            }
        }
    }

    /// One line. None where the run goes on.
    fn step(&mut self) -> Result<Option<End>, AllocError> {
        let function = self.function;
        let Some(line) = function.code.as_slice().get(self.place) else {
            return Ok(Some(End::Stuck));
        };
        let mut results = Vec::new(self.world.alloc);
        let next = self.acts(line, &mut results)?;
        self.goes(line, next, results.as_slice())
    }

    /// The run from the entry, in at most so many steps. The only error is want of memory.
    pub fn run(&mut self, args: &[Value], fuel: u32) -> Result<End, AllocError> {
        if !self.write(self.function.params.as_slice(), args)? {
            return Ok(End::Stuck);
        }
        for _ in 0..fuel {
            if let Some(end) = self.step()? {
                return Ok(end);
            }
        }
        Ok(End::Runs)
    }
}
