//! The text of a Mach function.
ghost use Rattle.std.specs.Prelude.{◌≡◌, ◌++◌, true, false, codes, IfOk};
ghost use Rattle.bs_words.specs.Contents.{contents};
ghost use Rattle.mach_ir.specs.Pages.{AddsText};
ghost use Rattle.mach_ir.specs.Words.{label_text, separator};
ghost use Rattle.mach_ir.specs.Text.{reg_text, regs_text, results_text, numbers_text, mark_word, mark_text};
ghost use Rattle.mach_ir.specs.Text.{instr_word, instr_text, mark_turn, turn_of, indent_at, indent_on, line_text};
ghost use Rattle.mach_ir.specs.Text.{shown_line, lines_text, mach_text};

use crate::label::Label;
use crate::mach::{Instr, Mach, MachOp, Mark};
use crate::page::{Page, right_of};
use crate::reg::Reg;
use bs_words::{List, Loc};
use std::alloc::{AllocError, Global};

/// How the levels of the text go at an instruction.
#[derive(Clone, Copy)]
pub enum Turn {
    /// It has the level of what is round it.
    Stays,
    /// What comes after is a level deeper.
    Opens,
    /// It begins another part of the structure that it is in, and has the level of that.
    Parts,
    /// It ends the structure.
    Closes,
    /// It has no line.
    Hides,
}

/// The text of a function. The only error is want of memory.
pub fn text(alloc: Global, mach: &Mach) -> Result<List<u8>, AllocError>
    ensures { IfOk result (λ text. contents text ≡ mach_text mach.now) }
{
    let mut page = Page::new(alloc);
    page.put(b"function ")?;
    page.put(mach.name.as_bytes())?;
    page.put(b"\n")?;
    page.put_lines(alloc, mach.code.as_slice())?;
    Ok(List::from_vec(page.bytes))
}

impl Page {
    fn put_lines(&mut self, alloc: Global, code: &[Instr]) -> Result<(), AllocError>
        ensures { IfOk result (λ _. AddsText self.old self.new (lines_text (codes "  ") code.now)) }
    {
        let mut indent = b"  ".to_vec(alloc)?;
        for instr in code {
            let turn = turn_of(&instr.op);
            dedent(&mut indent, turn);
            self.put_shown(turn, indent.as_slice(), instr)?;
            indent_more(&mut indent, turn)?;
        }
        Ok(())
    }

    fn put_shown(&mut self, turn: Turn, indent: &[u8], instr: &Instr) -> Result<(), AllocError>
        ensures { IfOk result (λ _.
            AddsText self.old self.new (shown_line turn (line_text indent.now instr.now))) }
    {
        match turn {
            Turn::Hides => Ok(()),
            Turn::Stays | Turn::Opens | Turn::Parts | Turn::Closes => self.put_line(indent, instr),
        }
    }

    fn put_line(&mut self, indent: &[u8], instr: &Instr) -> Result<(), AllocError>
        ensures { IfOk result (λ _. AddsText self.old self.new (line_text indent.now instr.now)) }
    {
        let args = instr.args.as_slice();
        self.put(indent)?;
        self.put_results(instr.results.as_slice())?;
        self.put_instr_word(&instr.op)?;
        self.put_args(args)?;
        self.put_instr(args.is_empty(), &instr.op)?;
        self.put(b"\n")
    }

    fn put_reg(&mut self, reg: Reg) -> Result<(), AllocError>
        ensures { IfOk result (λ _. AddsText self.old self.new (reg_text reg)) }
    {
        match reg.loc {
            Loc::Unset => {
                self.put(b"r")?;
                self.put_number(u64::from(reg.number))?;
            }
            Loc::Machine(number) => self.put_register(number)?,
            Loc::Slot(slot) => self.put_slot(slot)?,
        }
        self.put_comp(reg.comp)
    }

    /// Registers after others.
    fn put_more(&mut self, regs: &[Reg]) -> Result<(), AllocError>
        ensures { IfOk result (λ _. AddsText self.old self.new (regs_text false regs.now)) }
    {
        for reg in regs {
            self.put_separator(false)?;
            self.put_reg(*reg)?;
        }
        Ok(())
    }

    fn put_args(&mut self, regs: &[Reg]) -> Result<(), AllocError>
        ensures { IfOk result (λ _. AddsText self.old self.new (regs_text true regs.now)) }
    {
        match regs.split_first() {
            None => Ok(()),
            Some((reg, others)) => {
                self.put_separator(true)?;
                self.put_reg(*reg)?;
                self.put_more(others)
            }
        }
    }

    fn put_results(&mut self, regs: &[Reg]) -> Result<(), AllocError>
        ensures { IfOk result (λ _. AddsText self.old self.new (results_text regs.now)) }
    {
        match regs.split_first() {
            None => Ok(()),
            Some((reg, others)) => {
                self.put_reg(*reg)?;
                self.put_more(others)?;
                self.put(b" = ")
            }
        }
    }

    fn put_instr_word(&mut self, op: &MachOp) -> Result<(), AllocError>
        ensures { IfOk result (λ _. AddsText self.old self.new (instr_word op.now)) }
    {
        match op {
            MachOp::Op(op) => self.put_op_word(op),
            MachOp::Mark(mark) => self.put_mark_word(mark),
        }
    }

    fn put_instr(&mut self, first: bool, op: &MachOp) -> Result<(), AllocError>
        ensures { IfOk result (λ _. AddsText self.old self.new (instr_text first op.now)) }
    {
        match op {
            MachOp::Op(op) => self.put_op(first, op),
            MachOp::Mark(mark) => self.put_structure(first, mark),
        }
    }

    fn put_mark_word(&mut self, mark: &Mark) -> Result<(), AllocError>
        ensures { IfOk result (λ _. AddsText self.old self.new (mark_word mark.now)) }
    {
        match mark {
            Mark::Exit { label: _, tries: _ } => self.put(b"exit"),
            Mark::If { test, otherwise: _ } => {
                self.put(b"if")?;
                self.put_test_word(*test)
            }
            Mark::Else { label: _, end: _ } => self.put(b"else"),
            Mark::Switch(_) => self.put(b"switch"),
            Mark::Case {
                indexes: _,
                label: _,
                end: _,
            } => self.put(b"case"),
            Mark::Catch => self.put(b"catch"),
            Mark::With { label: _, end: _ } => self.put(b"with"),
            Mark::Try { handler: _ } => self.put(b"try"),
            Mark::Leave { handler: _, end: _ } => Ok(()),
            Mark::Handler { label: _ } => self.put(b"with"),
            Mark::End { label: _ } => self.put(b"end"),
        }
    }

    fn put_marked_label(&mut self, first: bool, label: Label) -> Result<(), AllocError>
        ensures { IfOk result (λ _. AddsText self.old self.new (separator first ++ label_text label)) }
    {
        self.put_separator(first)?;
        self.put_label(label)
    }

    /// The operands of a mark that are no registers.
    fn put_structure(&mut self, first: bool, mark: &Mark) -> Result<(), AllocError>
        ensures { IfOk result (λ _. AddsText self.old self.new (mark_text first mark.now)) }
    {
        match mark {
            Mark::Exit { label, tries: _ } => self.put_marked_label(first, *label),
            Mark::If { test, otherwise: _ } => self.put_right(first, right_of(*test)),
            Mark::Else { label: _, end: _ } => Ok(()),
            Mark::Switch(_) => Ok(()),
            Mark::Case {
                indexes,
                label: _,
                end: _,
            } => self.put_numbers(first, indexes.as_slice()),
            Mark::Catch => Ok(()),
            Mark::With { label, end: _ } => self.put_marked_label(first, *label),
            Mark::Try { handler: _ } => Ok(()),
            Mark::Leave { handler: _, end: _ } => Ok(()),
            Mark::Handler { label: _ } => Ok(()),
            Mark::End { label: _ } => Ok(()),
        }
    }

    /// Numbers after others.
    fn put_more_numbers(&mut self, numbers: &[u32]) -> Result<(), AllocError>
        ensures { IfOk result (λ _. AddsText self.old self.new (numbers_text false numbers.now)) }
    {
        for number in numbers {
            self.put_separator(false)?;
            self.put_number(u64::from(*number))?;
        }
        Ok(())
    }

    fn put_numbers(&mut self, first: bool, numbers: &[u32]) -> Result<(), AllocError>
        ensures { IfOk result (λ _. AddsText self.old self.new (numbers_text first numbers.now)) }
    {
        match numbers.split_first() {
            None => Ok(()),
            Some((number, others)) => {
                self.put_separator(first)?;
                self.put_number(u64::from(*number))?;
                self.put_more_numbers(others)
            }
        }
    }
}

fn turn_of(op: &MachOp) -> Turn
    ensures { result ≡ turn_of op.now }
{
    match op {
        MachOp::Op(_) => Turn::Stays,
        MachOp::Mark(mark) => turn_of_mark(mark),
    }
}

fn turn_of_mark(mark: &Mark) -> Turn
    ensures { result ≡ mark_turn mark.now }
{
    match mark {
        Mark::Exit { label: _, tries: _ } => Turn::Stays,
        Mark::If {
            test: _,
            otherwise: _,
        } => Turn::Opens,
        Mark::Else { label: _, end: _ } => Turn::Parts,
        Mark::Switch(_) => Turn::Opens,
        Mark::Case {
            indexes: _,
            label: _,
            end: _,
        } => Turn::Parts,
        Mark::Catch => Turn::Opens,
        Mark::With { label: _, end: _ } => Turn::Parts,
        Mark::Try { handler: _ } => Turn::Opens,
        Mark::Leave { handler: _, end: _ } => Turn::Hides,
        Mark::Handler { label: _ } => Turn::Parts,
        Mark::End { label: _ } => Turn::Closes,
    }
}

/// Leaves a level, where the line does.
fn dedent(indent: &mut Vec<u8>, turn: Turn)
    ensures { indent.new.items ≡ indent_at turn indent.old.items }
{
    match turn {
        Turn::Parts | Turn::Closes => indent.truncate(indent.len().saturating_sub(2)),
        Turn::Stays | Turn::Opens | Turn::Hides => {}
    }
}

/// Enters a level, where the line begins one.
fn indent_more(indent: &mut Vec<u8>, turn: Turn) -> Result<(), AllocError>
    ensures { IfOk result (λ _. indent.new.items ≡ indent_on turn indent.old.items) }
{
    match turn {
        Turn::Opens | Turn::Parts => indent.extend_from_slice(b"  ")?,
        Turn::Stays | Turn::Closes | Turn::Hides => {}
    }
    Ok(())
}
