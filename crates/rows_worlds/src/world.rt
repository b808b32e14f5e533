//! The world, and what an operation of both languages does to it.
ghost use Rattle.std.specs.Prelude.{◌≡◌, ◌<◌, ◌^◌, length, None};
ghost use Rattle.cmm_data.specs.Faults.{data_fault_of};
ghost use Rattle.cmm_tree.specs.Tree.{functions};
ghost use Rattle.cmm_tree.specs.View.{file_view};

use crate::ends::{Asked, Call, Doing, End, Holding, Next};
use bs_words::{Chunk, Comp, DATA_START, IntOp, Ret, Ty, Value};
use cmm_data::{SymbolTable, data_fault};
use cmm_tree::{File, Item, Param};
use cmm_values::{Memory, apply, condition_of, fits};
use mach_ir::{Access, Blocks, Callee, Calling, External, Label, Leaving, Op, Pure, Right, Test};
use std::alloc::{AllocError, Global};

/// A header, which is number 0, or a cell of a block, from 1 on.
#[derive(Clone, Copy, PartialEq, Eq)]
struct Part {
    serial: u64,
    word: u64,
}

/// What is round a function as it runs.
#[derive(Drop)]
pub struct World<'a> {
    /// Where memory comes from.
    pub alloc: Global,
    file: &'a File,
    symbols: SymbolTable<'a>,
    memory: Memory,
    /// The header of each new block.
    headers: Vec<u64>,
    unwritten: Vec<Part>,
    /// The labels of the handlers of the pushed tries.
    pub tries: Vec<u32>,
    /// What was raised, on its way to a handler.
    pub raised: Option<Value>,
    /// What calls do, and how many of these have been made.
    doings: Vec<Doing>,
    taken: usize,
    /// The units that were paid.
    pub units: u64,
    /// The calls that came back.
    pub calls: Vec<Call>,
}

const STUCK: Next = Next::Over(End::Stuck);

impl<'a> World<'a> {
    /// What is round a run, where the text's data has no fault and its items have numbers.
    pub fn of(
        alloc: Global,
        file: &'a File,
        doings: Vec<Doing>,
    ) -> Result<Option<Self>, AllocError> {
        if data_fault(file).is_some() {
            return Ok(None);
        }
        if file.items.len() > u32::MAX as usize {
            return Ok(None);
        }
        Ok(Some(World::of_faultless(alloc, file, doings)?))
    }

    fn of_faultless(alloc: Global, file: &'a File, doings: Vec<Doing>) -> Result<Self, AllocError>
        requires data { data_fault_of (file_view file.now) ≡ None }
        requires few { length (functions (file_view file.now)) < 2 ^ 32 }
    {
        Ok(World {
            alloc,
            file,
            symbols: SymbolTable::of_file(alloc, file)?,
            memory: Memory::of_file(alloc, file)?,
            headers: Vec::new(alloc),
            unwritten: Vec::new(alloc),
            tries: Vec::new(alloc),
            raised: None,
            doings,
            taken: 0,
            units: 0,
            calls: Vec::new(alloc),
        })
    }

    /// A unit is paid.
    pub fn pays(&mut self) {
        self.units = self.units.wrapping_add(1);
    }

    /// Whether a value fits a component.
    pub fn fits(&self, comp: Comp, value: Value) -> bool {
        fits(self.memory.end_of_data(), comp.ty(), value)
    }

    /// Whether a value is one of type val.
    pub fn is_val(&self, value: Value) -> bool {
        fits(self.memory.end_of_data(), Ty::Val, value)
    }

    /// Whether all blocks are written.
    fn is_whole(&self) -> bool {
        self.unwritten.is_empty()
    }

    // ---- memory

    fn is_unwritten(&self, part: Part) -> bool {
        for unwritten in self.unwritten.as_slice() {
            if *unwritten == part {
                return true;
            }
        }
        false
    }

    fn write(&mut self, part: Part) -> Result<(), AllocError> {
        let mut left = Vec::new(self.alloc);
        for unwritten in self.unwritten.as_slice() {
            if *unwritten != part {
                left.push(*unwritten)?;
            }
        }
        self.unwritten = left;
        Ok(())
    }

    /// The part of a block at an address, if that part has not been written.
    fn unwritten_at(&self, address: Value) -> Option<Part> {
        let part = part_at(address)?;
        if self.is_unwritten(part) {
            Some(part)
        } else {
            None
        }
    }

    fn load(&self, chunk: Chunk, address: Value) -> Option<Value> {
        match self.unwritten_at(address) {
            Some(_) => None,
            None => self.memory.load(chunk, address).ok(),
        }
    }

    /// Whether it is stored.
    fn store(&mut self, chunk: Chunk, address: Value, value: Value) -> Result<bool, AllocError> {
        match self.unwritten_at(address) {
            Some(part) => self.store_first(part, chunk, address, value),
            None => Ok(self.memory.store(chunk, address, value).is_ok()),
        }
    }

    /// Whether the first store to a part is done: a part is written whole.
    fn store_first(
        &mut self,
        part: Part,
        chunk: Chunk,
        address: Value,
        value: Value,
    ) -> Result<bool, AllocError> {
        let is_header = part.word == 0;
        let is_stored = match chunk {
            Chunk::Int if is_header => self.fits_header(part.serial, address, value),
            Chunk::Int => self.memory.store(chunk, address, value).is_ok(),
            Chunk::Val if is_header => false,
            Chunk::Val => self.memory.store(chunk, address, value).is_ok(),
            Chunk::U8 | Chunk::I8 | Chunk::U16 | Chunk::I16 | Chunk::U32 | Chunk::I32 => false,
        };
        if is_stored {
            self.write(part)?;
        }
        Ok(is_stored)
    }

    /// Whether a header is written with the word that its allocation says.
    fn fits_header(&self, serial: u64, address: Value, value: Value) -> bool {
        match self.headers.get(serial as usize) {
            Some(header) => is_aligned(address) && value == Value::Word(*header),
            None => false,
        }
    }

    /// The pointer to a new block, none of which is written.
    fn new_block(&mut self, header: u64, cells: u32) -> Result<Option<Value>, AllocError> {
        let mut odd = Vec::new(self.alloc);
        for _ in 0..cells {
            odd.push(Value::Word(1))?;
        }
        let Ok(pointer) = self.memory.allocate(header, odd)? else {
            return Ok(None);
        };
        let serial = self.headers.len() as u64;
        self.headers.push(header)?;
        for word in 0..=u64::from(cells) {
            self.unwritten.push(Part { serial, word })?;
        }
        Ok(Some(pointer))
    }

    fn new_blocks(
        &mut self,
        blocks: &Blocks,
        results: &mut Vec<Value>,
    ) -> Result<Next, AllocError> {
        if !self.is_whole() {
            return Ok(STUCK);
        }
        for block in blocks.as_slice() {
            match self.new_block(block.header, block.cells)? {
                Some(pointer) => results.push(pointer)?,
                None => return Ok(STUCK),
            }
        }
        Ok(Next::On)
    }

    fn access(
        &mut self,
        access: &Access,
        args: &[Value],
        results: &mut Vec<Value>,
    ) -> Result<Next, AllocError> {
        match access {
            Access::Load { chunk, offset } => match args {
                [address] => one(self.load(*chunk, moved(*address, *offset)), results),
                [] | [_, _, ..] => Ok(STUCK),
            },
            Access::Store { chunk, offset } => match args {
                [address, value] => self.stores(*chunk, moved(*address, *offset), *value),
                [] | [_] | [_, _, _, ..] => Ok(STUCK),
            },
            Access::Alloc(blocks) => match args {
                [] => self.new_blocks(blocks, results),
                [_, ..] => Ok(STUCK),
            },
        }
    }

    fn stores(&mut self, chunk: Chunk, address: Value, value: Value) -> Result<Next, AllocError> {
        if self.store(chunk, address, value)? {
            Ok(Next::On)
        } else {
            Ok(STUCK)
        }
    }

    // ---- registers alone

    fn apply(&self, op: IntOp, right: Right, args: &[Value]) -> Option<Value> {
        let (left, right) = operands(right, args)?;
        apply(op, &self.memory, left, right).ok()
    }

    fn pure(
        &self,
        pure: &Pure,
        args: &[Value],
        results: &mut Vec<Value>,
    ) -> Result<Next, AllocError> {
        let result = match pure {
            Pure::Copy(_) => only(args),
            Pure::Constant(word) => match args {
                [] => Some(Value::Word(*word)),
                [_, ..] => None,
            },
            Pure::Symbol(name) => match args {
                [] => self.symbols.value_of(name.as_bytes()),
                [_, ..] => None,
            },
            Pure::Operator(op, right) => self.apply(*op, *right, args),
        };
        one(result, results)
    }

    /// Whether a test holds of its operands.
    pub fn holds(&self, test: Test, args: &[Value]) -> Holding {
        match test {
            Test::Holds => self.condition(args),
            Test::Fails => self.condition(args).opposite(),
            Test::Signed(compare, right) => self.comparison(IntOp::Cmp(compare), right, args),
            Test::Unsigned(compare, right) => self.comparison(IntOp::CmpU(compare), right, args),
        }
    }

    /// Whether the one operand holds as a condition.
    fn condition(&self, args: &[Value]) -> Holding {
        let Some(value) = only(args) else {
            return Holding::Stuck;
        };
        match condition_of(&self.memory, value) {
            Ok(holds) => Holding::of(holds),
            Err(_) => Holding::Stuck,
        }
    }

    /// Whether a comparison, whose value is 1 or 0, holds of its operands.
    fn comparison(&self, compare: IntOp, right: Right, args: &[Value]) -> Holding {
        match self.apply(compare, right, args) {
            Some(value) => Holding::of(value == Value::Word(1)),
            None => Holding::Stuck,
        }
    }

    /// The label of the case of an index.
    pub fn case(&self, labels: &[Label], args: &[Value]) -> Next {
        match label_at(labels, args) {
            Some(label) => Next::To(label.0),
            None => STUCK,
        }
    }

    // ---- raises

    /// To the handler of the innermost try, or out of the function.
    fn goes_up(&mut self, value: Value) -> Next {
        match self.tries.pop() {
            Some(label) => {
                self.raised = Some(value);
                Next::Handler(label)
            }
            None => Next::Over(End::Does(Doing::Raises(value))),
        }
    }

    /// A raise by an operation of the function itself is a unit.
    fn raises(&mut self, value: Value) -> Next {
        if !self.is_whole() || !self.is_val(value) {
            return STUCK;
        }
        self.pays();
        self.goes_up(value)
    }

    fn checks(&mut self, bound: Value, index: Value) -> Next {
        let (Some(bound), Some(index)) = (word_in(bound), word_in(index)) else {
            return STUCK;
        };
        if index < bound {
            Next::On
        } else {
            self.raises(Value::Word(DATA_START))
        }
    }

    /// The function ends with a value, or none.
    fn returns(&self, args: &[Value]) -> Next {
        if !self.is_whole() {
            return STUCK;
        }
        match args {
            [] => Next::Over(End::Does(Doing::Gives(None))),
            [value] => Next::Over(End::Does(Doing::Gives(Some(*value)))),
            [_, _, ..] => STUCK,
        }
    }

    fn leaving(&mut self, leaving: Leaving, args: &[Value]) -> Next {
        match leaving {
            Leaving::Checkbound(right) => match operands(right, args) {
                Some((bound, index)) => self.checks(bound, index),
                None => STUCK,
            },
            Leaving::Raise => match only(args) {
                Some(value) => self.raises(value),
                None => STUCK,
            },
            Leaving::Return => self.returns(args),
        }
    }

    // ---- calls

    fn parameters_fit(&self, number: u32, args: &[Value]) -> bool {
        let mut functions = 0;
        for item in self.file.items.as_slice() {
            match item {
                Item::Function(function) => {
                    if functions == number {
                        return self.all_fit(function.params.as_slice(), args);
                    }
                    functions = functions.wrapping_add(1);
                }
                Item::Data(_) => {}
            }
        }
        false
    }

    fn all_fit(&self, params: &[Param], args: &[Value]) -> bool {
        if params.len() != args.len() {
            return false;
        }
        for (param, arg) in params.iter().zip(args) {
            if !self.fits(param.comp, *arg) {
                return false;
            }
        }
        true
    }

    /// What is handed in for the next call.
    fn next_doing(&mut self) -> Option<Doing> {
        let doing = self.doings.get(self.taken).copied();
        self.taken = self.taken.wrapping_add(1);
        doing
    }

    fn asks(&mut self, callee: Asked, args: &[Value]) -> Result<Option<Doing>, AllocError> {
        match self.next_doing() {
            Some(doing) => {
                self.calls.push(Call {
                    callee,
                    args: args.to_vec(self.alloc)?,
                })?;
                Ok(Some(doing))
            }
            None => Ok(None),
        }
    }

    /// The function that is called, and the arguments.
    fn callee_of<'b>(&self, callee: &Callee, args: &'b [Value]) -> Option<(u32, &'b [Value])> {
        let (value, args) = match callee {
            Callee::Symbol(name) => (self.symbols.value_of(name.as_bytes())?, args),
            Callee::Register => {
                let (value, args) = args.split_first()?;
                (*value, args)
            }
        };
        let number = function_in(value)?;
        if self.parameters_fit(number, args) && self.is_whole() {
            Some((number, args))
        } else {
            None
        }
    }

    fn call(
        &mut self,
        callee: &Callee,
        wanted: Ret,
        args: &[Value],
        results: &mut Vec<Value>,
    ) -> Result<Next, AllocError> {
        let Some((number, args)) = self.callee_of(callee, args) else {
            return Ok(STUCK);
        };
        match self.asks(Asked::Function(number), args)? {
            None => Ok(Next::Over(End::Asks)),
            Some(doing) => {
                self.pays();
                match doing {
                    Doing::Gives(value) => self.answered(wanted, value, results),
                    Doing::Raises(value) if self.is_val(value) => Ok(self.goes_up(value)),
                    Doing::Raises(_) => Ok(STUCK),
                }
            }
        }
    }

    fn tail_call(
        &mut self,
        callee: &Callee,
        wanted: Ret,
        args: &[Value],
    ) -> Result<Next, AllocError> {
        let Some((number, args)) = self.callee_of(callee, args) else {
            return Ok(STUCK);
        };
        let end = match self.asks(Asked::Function(number), args)? {
            None => End::Asks,
            Some(doing) => {
                self.pays();
                End::Does(handed_on(wanted, doing))
            }
        };
        Ok(Next::Over(end))
    }

    fn external(
        &mut self,
        row: &External,
        is_frame_call: bool,
        args: &[Value],
        results: &mut Vec<Value>,
    ) -> Result<Next, AllocError> {
        if !self.is_whole() {
            return Ok(STUCK);
        }
        let name = row.name.clone()?;
        match self.asks(Asked::External(name), args)? {
            None => Ok(Next::Over(End::Asks)),
            Some(Doing::Gives(value)) => self.answered(row.result, value, results),
            Some(Doing::Raises(value)) if is_frame_call => Ok(self.raises(value)),
            Some(Doing::Raises(_)) => Ok(STUCK),
        }
    }

    fn answered(
        &self,
        wanted: Ret,
        value: Option<Value>,
        results: &mut Vec<Value>,
    ) -> Result<Next, AllocError> {
        match wanted {
            Ret::Unit => Ok(Next::On),
            Ret::Comp(comp) => match value {
                Some(value) if self.fits(comp, value) => one(Some(value), results),
                Some(_) | None => Ok(STUCK),
            },
        }
    }

    fn calling(
        &mut self,
        calling: &Calling,
        args: &[Value],
        results: &mut Vec<Value>,
    ) -> Result<Next, AllocError> {
        match calling {
            Calling::Call { callee, result } => self.call(callee, *result, args, results),
            Calling::TailCall { callee, result } => self.tail_call(callee, *result, args),
            Calling::External { row, frame } => self.external(row, *frame, args, results),
        }
    }

    /// Does an operation, whose results come into the vector. The only error is want of memory.
    pub fn does(
        &mut self,
        op: &Op,
        args: &[Value],
        results: &mut Vec<Value>,
    ) -> Result<Next, AllocError> {
        match op {
            Op::Pure(pure) => self.pure(pure, args, results),
            Op::Access(access) => self.access(access, args, results),
            Op::Calling(calling) => self.calling(calling, args, results),
            Op::Leaving(leaving) => Ok(self.leaving(*leaving, args)),
        }
    }

    /// Leaves so many tries.
    pub fn drop_tries(&mut self, tries: u32) {
        for _ in 0..tries {
            self.tries.pop();
        }
    }
}

/// The one result, or stuck.
fn one(value: Option<Value>, results: &mut Vec<Value>) -> Result<Next, AllocError> {
    match value {
        Some(value) => {
            results.push(value)?;
            Ok(Next::On)
        }
        None => Ok(STUCK),
    }
}

/// The one operand.
fn only(args: &[Value]) -> Option<Value> {
    match args {
        [value] => Some(*value),
        [] | [_, _, ..] => None,
    }
}

/// The two operands of an operator, a comparison or a bound test, of which the right one may be a constant.
fn operands(right: Right, args: &[Value]) -> Option<(Value, Value)> {
    match right {
        Right::Register => match args {
            [left, right] => Some((*left, *right)),
            [] | [_] | [_, _, _, ..] => None,
        },
        Right::Constant(word) => Some((only(args)?, Value::Word(word))),
    }
}

/// The label at the index that the one operand is.
fn label_at(labels: &[Label], args: &[Value]) -> Option<Label> {
    let index = word_in(only(args)?)?;
    labels.get(index as usize).copied()
}

/// The word that a value is.
fn word_in(value: Value) -> Option<u64> {
    match value {
        Value::Word(word) => Some(word),
        Value::Block { .. } | Value::Function(_) => None,
    }
}

/// The number of the function that a value is.
fn function_in(value: Value) -> Option<u32> {
    match value {
        Value::Function(number) => Some(number),
        Value::Word(_) | Value::Block { .. } => None,
    }
}

/// What a function does whose tail call did this.
fn handed_on(wanted: Ret, doing: Doing) -> Doing {
    match doing {
        Doing::Gives(value) => match wanted {
            Ret::Unit => Doing::Gives(None),
            Ret::Comp(_) => Doing::Gives(value),
        },
        Doing::Raises(value) => Doing::Raises(value),
    }
}

/// Whether an address in a block is one of a word.
fn is_aligned(address: Value) -> bool {
    match address {
        Value::Block { serial: _, offset } => offset % 8 == 0,
        Value::Word(_) | Value::Function(_) => false,
    }
}

/// The part of a block at an address.
fn part_at(address: Value) -> Option<Part> {
    match address {
        Value::Block { serial, offset } => Some(Part {
            serial,
            word: offset.wrapping_add(8) / 8,
        }),
        Value::Word(_) | Value::Function(_) => None,
    }
}

/// The address so many bytes further.
fn moved(address: Value, bytes: u64) -> Value {
    match address {
        Value::Word(word) => Value::Word(word.wrapping_add(bytes)),
        Value::Block { serial, offset } => Value::Block {
            serial,
            offset: offset.wrapping_add(bytes),
        },
        Value::Function(number) => Value::Function(number),
    }
}

/// What an operation destroys of the registers of the machine.
pub fn destroys(op: &Op, register: u8) -> bool {
    match op {
        Op::Calling(Calling::External { .. }) => {
            (10 <= register && register <= 17) || 28 <= register
        }
        Op::Calling(Calling::Call { .. } | Calling::TailCall { .. }) => true,
        Op::Pure(_) | Op::Access(_) | Op::Leaving(_) => false,
    }
}

/// Whether it is a frame point that is no tail call.
pub fn is_frame_point(op: &Op) -> bool {
    match op {
        Op::Access(Access::Alloc(_)) => true,
        Op::Access(Access::Load { .. } | Access::Store { .. }) => false,
        Op::Calling(Calling::Call { .. }) => true,
        Op::Calling(Calling::TailCall { .. }) => false,
        Op::Calling(Calling::External { row: _, frame }) => *frame,
        Op::Pure(_) | Op::Leaving(_) => false,
    }
}
