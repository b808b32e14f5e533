//! From the lines of a row to an instruction of Mach or of Linear.
//!
//! A line is `RESULTS = NAME WORDS` or `NAME WORDS`: the words that are registers are the operands, in their order, and the
//! others those that its name takes (`forms`).

ghost use Rattle.std.specs.Prelude.{◌≤◌, IfSome};

use crate::forms::{FLOWS, Form, MARKS, form_of};
use crate::words::{chunk, entry, given, number, operator, register, right, test};
use anyhow::{Result, bail};
use bs_words::{Name, Ret};
use lin_ir::{Flow, LinOp, Line, Spot};
use mach_ir::{
    Access, Blocks, Callee, Calling, CopyKind, External, Instr, Label, Leaving, MachOp, Mark,
    NewBlock, Op, Pure, Reg, Right, Seq, Test,
};
use std::alloc::{AllocError, Global};

/// A call of what a word names or of a register, perhaps in the tail, or of a function outside.
#[derive(Clone, Copy)]
enum Call {
    Symbol,
    Register,
    TailSymbol,
    TailRegister,
    External { frame: bool },
}

static CALLS: [(&str, Call); 6] = [
    ("call", Call::Symbol),
    ("callreg", Call::Register),
    ("tail", Call::TailSymbol),
    ("tailreg", Call::TailRegister),
    ("extern", Call::External { frame: false }),
    ("frame", Call::External { frame: true }),
];

/// A line taken apart.
#[derive(Drop)]
pub struct Parts<'a> {
    alloc: Global,
    name: &'a str,
    words: Vec<&'a str>,
    args: Vec<Reg>,
    results: Vec<Reg>,
}

/// The words of a line.
///
/// # Errors
///
/// Want of memory alone.
pub fn words_of<'a>(alloc: Global, line: &'a str) -> Result<Vec<&'a str>, AllocError> {
    let mut words = Vec::new(alloc);
    for word in line.split(' ') {
        if !word.is_empty() {
            words.push(word)?;
        }
    }
    Ok(words)
}

fn register_of(word: &str) -> Result<Reg> {
    match register(word) {
        Some(reg) => Ok(reg),
        None => bail!("no register: {word}"),
    }
}

/// The registers whose words the text has.
///
/// # Errors
///
/// A word that is no register, or want of memory.
pub fn registers(alloc: Global, text: &str) -> Result<Vec<Reg>> {
    let mut regs = Vec::new(alloc);
    for word in text.split(' ') {
        if !word.is_empty() {
            regs.push(register_of(word)?)?;
        }
    }
    Ok(regs)
}

/// The line taken apart, whose first word after the results is its name.
///
/// # Errors
///
/// A word among the results that is no register, or want of memory.
pub fn apart<'a>(alloc: Global, line: &'a str) -> Result<Parts<'a>> {
    let (before, body) = match line.split_once(" = ") {
        Some(parts) => parts,
        None => ("", line),
    };
    let (name, rest) = match body.split_once(" ") {
        Some(parts) => parts,
        None => (body, ""),
    };
    let mut parts = Parts::new(alloc, name, registers(alloc, before)?);
    parts.add_words(rest)?;
    Ok(parts)
}

impl<'a> Parts<'a> {
    /// A name and results; the words are not read yet.
    fn new(alloc: Global, name: &'a str, results: Vec<Reg>) -> Self {
        Parts {
            alloc,
            name,
            words: Vec::new(alloc),
            args: Vec::new(alloc),
            results,
        }
    }

    /// Adds a word, to the operands where it is a register.
    fn add(&mut self, word: &'a str) -> Result<(), AllocError> {
        match register(word) {
            Some(reg) => self.args.push(reg)?,
            None => self.words.push(word)?,
        }
        Ok(())
    }

    fn add_words(&mut self, text: &'a str) -> Result<(), AllocError> {
        for word in text.split(' ') {
            if !word.is_empty() {
                self.add(word)?;
            }
        }
        Ok(())
    }

    /// The number that is word `index`, or 0.
    fn number(&self, index: usize) -> u32 {
        match self.words.get(index) {
            Some(word) => word.parse::<u32>().unwrap_or(0),
            None => 0,
        }
    }

    /// The label that has that number.
    fn label(&self, index: usize) -> Label {
        Label(self.number(index))
    }

    fn word(&self, index: usize) -> &'a str {
        match self.words.get(index) {
            Some(word) => *word,
            None => "",
        }
    }

    fn right(&self) -> Right {
        right(self.words.as_slice())
    }

    fn called(&self) -> Result<Name, AllocError> {
        Ok(Name::from_vec(self.word(0).as_bytes().to_vec(self.alloc)?))
    }

    fn result(&self) -> Ret {
        match self.words.as_slice().last() {
            Some(word) => given(word).unwrap_or(Ret::Unit),
            None => Ret::Unit,
        }
    }

    /// Whether its words are those of its name, which is one of the marks or an operation.
    fn is_whole(&self, marks: &[(&'static str, Form)]) -> bool {
        match form_of(marks, self.name) {
            Some(form) => form.fits(self.words.as_slice()),
            None => false,
        }
    }

    /// The indexes of a case, which come after its labels.
    fn indexes(&self) -> Result<Seq<u32>, AllocError> {
        let mut indexes = Vec::new(self.alloc);
        for index in 2..self.words.len() {
            indexes.push(self.number(index))?;
        }
        Ok(Seq::from_vec(indexes))
    }

    /// The labels whose numbers the words are.
    fn labels(&self) -> Result<Seq<Label>, AllocError> {
        let mut labels = Vec::new(self.alloc);
        for index in 0..self.words.len() {
            labels.push(self.label(index))?;
        }
        Ok(Seq::from_vec(labels))
    }

    /// Each word is a header and a number of cells: `2048:2`.
    fn blocks(&self) -> Result<Option<Blocks>, AllocError> {
        let mut blocks: Option<Blocks> = None;
        for word in self.words.as_slice() {
            let Some(block) = new_block(word) else {
                return Ok(None);
            };
            blocks = match blocks {
                None => Some(Blocks::one(self.alloc, block)?),
                Some(mut blocks) => {
                    if blocks.bytes() >= 4096 {
                        return Ok(None);
                    }
                    blocks.push(block)?;
                    Some(blocks)
                }
            };
        }
        Ok(blocks)
    }

    fn external(&self, frame: bool) -> Result<Calling, AllocError> {
        let row = External {
            name: self.called()?,
            params: Seq::new(self.alloc),
            result: self.result(),
        };
        Ok(Calling::External { row, frame })
    }

    /// A call of a function that is named.
    fn call(&self) -> Result<Calling, AllocError> {
        let callee = Callee::Symbol(self.called()?);
        let result = self.result();
        Ok(Calling::Call { callee, result })
    }

    /// A tail call of a function that is named.
    fn tail_call(&self) -> Result<Calling, AllocError> {
        let callee = Callee::Symbol(self.called()?);
        let result = self.result();
        Ok(Calling::TailCall { callee, result })
    }

    fn call_register(&self) -> Calling {
        let callee = Callee::Register;
        let result = self.result();
        Calling::Call { callee, result }
    }

    fn tail_call_register(&self) -> Calling {
        let callee = Callee::Register;
        let result = self.result();
        Calling::TailCall { callee, result }
    }

    fn calling(&self, kind: Call) -> Result<Calling, AllocError> {
        match kind {
            Call::Symbol => self.call(),
            Call::Register => Ok(self.call_register()),
            Call::TailSymbol => self.tail_call(),
            Call::TailRegister => Ok(self.tail_call_register()),
            Call::External { frame } => self.external(frame),
        }
    }

    /// The operations of registers whose words need no memory.
    fn plain(&self) -> Option<Pure> {
        match self.name {
            "move" => Some(Pure::Copy(CopyKind::Move)),
            "spill" => Some(Pure::Copy(CopyKind::Spill)),
            "reload" => Some(Pure::Copy(CopyKind::Reload)),
            "const" => Some(Pure::Constant(number(self.word(0))?)),
            name => Some(Pure::Operator(operator(name)?, self.right())),
        }
    }

    fn pure(&self) -> Result<Option<Pure>, AllocError> {
        if self.name == "symbol" {
            Ok(Some(Pure::Symbol(self.called()?)))
        } else {
            Ok(self.plain())
        }
    }

    /// A load or a store.
    fn memory(&self) -> Option<Access> {
        let (name, wide) = self.name.split_once(":")?;
        let chunk = chunk(wide)?;
        let offset = number(self.word(0)).unwrap_or(0);
        match name {
            "load" => Some(Access::Load { chunk, offset }),
            "store" => Some(Access::Store { chunk, offset }),
            _ => None,
        }
    }

    fn access(&self) -> Result<Option<Access>, AllocError> {
        if self.name == "alloc" {
            Ok(self.blocks()?.map(Access::Alloc))
        } else {
            Ok(self.memory())
        }
    }

    fn leaving(&self) -> Option<Leaving> {
        match self.name {
            "checkbound" => Some(Leaving::Checkbound(self.right())),
            "raise" => Some(Leaving::Raise),
            "return" => Some(Leaving::Return),
            _ => None,
        }
    }

    fn op(&self) -> Result<Option<Op>, AllocError> {
        if let Some(leaving) = self.leaving() {
            return Ok(Some(Op::Leaving(leaving)));
        }
        if let Some(kind) = entry(&CALLS, self.name) {
            return Ok(Some(Op::Calling(self.calling(kind)?)));
        }
        if let Some(access) = self.access()? {
            return Ok(Some(Op::Access(access)));
        }
        Ok(self.pure()?.map(Op::Pure))
    }

    fn test(&self) -> Option<Test> {
        test(self.word(0), self.right())
    }

    fn case(&self) -> Result<Mark, AllocError> {
        Ok(Mark::Case {
            indexes: self.indexes()?,
            label: self.label(0),
            end: self.label(1),
        })
    }

    /// The marks whose words are a test or two numbers at the most.
    fn plain_mark(&self) -> Option<Mark> {
        let (label, end) = (self.label(0), self.label(1));
        match self.name {
            "exit" => Some(Mark::Exit {
                label,
                tries: self.number(1),
            }),
            "if" => Some(Mark::If {
                test: self.test()?,
                otherwise: end,
            }),
            "else" => Some(Mark::Else { label, end }),
            "catch" => Some(Mark::Catch),
            "with" => Some(Mark::With { label, end }),
            "try" => Some(Mark::Try { handler: label }),
            "leave" => Some(Mark::Leave {
                handler: label,
                end,
            }),
            "handler" => Some(Mark::Handler { label }),
            "end" => Some(Mark::End { label }),
            _ => None,
        }
    }

    /// Which mark of Mach it is; its labels come before all else, but for the word of a test.
    fn mark(&self) -> Result<Option<Mark>, AllocError> {
        match self.name {
            "switch" => Ok(Some(Mark::Switch(self.labels()?))),
            "case" => Ok(Some(self.case()?)),
            _ => Ok(self.plain_mark()),
        }
    }

    /// How control goes in Linear, but for a switch.
    fn plain_flow(&self) -> Option<Flow> {
        let label = self.label(0);
        match self.name {
            "label" => Some(Flow::Label(label)),
            "jump" => Some(Flow::Jump(label)),
            "exit" => Some(Flow::Exit(label)),
            "branch" => Some(Flow::Branch {
                test: self.test()?,
                label: self.label(1),
            }),
            "push" => Some(Flow::PushTrap(label)),
            "pop" => Some(Flow::PopTrap),
            "enter" => Some(Flow::EnterTrap),
            _ => None,
        }
    }

    fn flow(&self) -> Result<Option<Flow>, AllocError> {
        if self.name == "switch" {
            Ok(Some(Flow::Switch(self.labels()?)))
        } else {
            Ok(self.plain_flow())
        }
    }

    /// What an instruction of Mach does.
    fn mach_op(&self) -> Result<Option<MachOp>, AllocError> {
        match self.mark()? {
            Some(mark) => Ok(Some(MachOp::Mark(mark))),
            None => Ok(self.op()?.map(MachOp::Op)),
        }
    }

    /// What a line of Linear does.
    fn lin_op(&self) -> Result<Option<LinOp>, AllocError> {
        match self.flow()? {
            Some(flow) => Ok(Some(LinOp::Flow(flow))),
            None => Ok(self.op()?.map(LinOp::Op)),
        }
    }

    /// The instruction of Mach that does this.
    fn instr_of(self, op: MachOp) -> Instr {
        Instr {
            op,
            args: Seq::from_vec(self.args),
            results: Seq::from_vec(self.results),
        }
    }

    /// The line of Linear that does this.
    fn line_of(&self, op: LinOp) -> Result<Line, AllocError> {
        let args = spots(self.alloc, self.args.as_slice())?;
        let results = spots(self.alloc, self.results.as_slice())?;
        Ok(Line { op, args, results })
    }

    /// The instruction of Mach, if it is one.
    ///
    /// # Errors
    ///
    /// Want of memory alone.
    pub fn instr(self) -> Result<Option<Instr>, AllocError> {
        if !self.is_whole(&MARKS) {
            return Ok(None);
        }
        match self.mach_op()? {
            Some(op) => Ok(Some(self.instr_of(op))),
            None => Ok(None),
        }
    }

    /// The line of Linear, if it is one.
    ///
    /// # Errors
    ///
    /// Want of memory alone.
    pub fn line(self) -> Result<Option<Line>, AllocError> {
        if !self.is_whole(&FLOWS) {
            return Ok(None);
        }
        match self.lin_op()? {
            Some(op) => Ok(Some(self.line_of(op)?)),
            None => Ok(None),
        }
    }
}

fn new_block(word: &str) -> Option<NewBlock>
    ensures { IfSome result (λ block. block.cells ≤ 255) }
{
    let (header, cells) = word.split_once(":")?;
    let header = number(header)?;
    let cells = u32::from(cells.parse::<u8>().ok()?);
    Some(NewBlock { header, cells })
}

/// The locations of registers.
///
/// # Errors
///
/// Want of memory alone.
pub fn spots(alloc: Global, regs: &[Reg]) -> Result<Seq<Spot>, AllocError> {
    let mut spots = Vec::new(alloc);
    for reg in regs {
        spots.push(Spot {
            loc: reg.loc,
            comp: reg.comp,
        })?;
    }
    Ok(Seq::from_vec(spots))
}
