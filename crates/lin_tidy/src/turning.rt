//! Loops turned round.
ghost use Rattle.std.specs.Option.{option_map};
ghost use Rattle.std.specs.Prelude.{◌≡◌, ◌+◌, ◌*◌, ◌++◌, ◌<◌, ◌^◌, ℕ, suc, List, drop, length, max, [], ◌∷◌, ◌||◌, Option, Some, false, IfOk};
ghost use Rattle.lin_ir.specs.Formed.{label_of, labels_in};
ghost use Rattle.lin_ir.specs.declared.lin.Line.{Line};
ghost use Rattle.lin_flow.specs.Labels.{AreLabelsOf};
ghost use Rattle.lin_tidy_rules.specs.Turning.{label_here, label_on, head_by, head_at, comes_first, stands_first, exit_head};
ghost use Rattle.linearise_rules.specs.Lowered.{limit_above};
ghost use Rattle.lin_tidy_rules.specs.Turning.{is_on, line_turn, branch_line, tested_again, label_put, turned_line, turned_all};
ghost use Rattle.lin_tidy.specs.Sizes.{HasLabels};
ghost use Rattle.lin_tidy.specs.Loops.{head_view, turn_view, turns_in, is_opened, opened_in, first_turn, others_of, turned_by, AreChanges};

use lin_flow::LineLabels;
use lin_ir::{Flow, Lin, LinOp, Line, Spot};
use lin_unused::forms::{exit_of, goes_away};
use linearise::{bare, opposite_test};
use mach_ir::{Label, Seq, Test};
use std::alloc::{AllocError, Global};
use std::collections::BTreeSet;

/// What is free above these labels and that of one more line.
fn free_above(free: usize, op: &LinOp) -> usize
    ensures { (ls : List ℕ) →
        max result (limit_above ls) ≡ max free (limit_above (label_of op.now ++ ls)) }
{
    match op.own_label() {
        None => free,
        Some(label) => {
            let label = label.0 as usize;
            if label < free {
                return free;
            }
            label + 1
        }
    }
}

/// The first number above all labels of the code.
pub fn first_free(code: &[Line]) -> usize
    ensures { result ≡ limit_above (labels_in code.now) }
{
    let mut free = 0;
    for line in code {
        free = free_above(free, &line.op);
    }
    free
}

/// The label that an exit goes to which is turned, by the number of lines after it.
fn label_here(free: u32, after: u32) -> Label
    requires { free + 2 * after < 2 ^ 32 }
    ensures { result ≡ label_here free after }
{
    Label(free + 2 * after)
}

/// The label that is put after a branch, by the number of lines after it.
fn label_on(free: u32, after: u32) -> Label
    requires { suc (free + 2 * after) < 2 ^ 32 }
    ensures { result ≡ label_on free after }
{
    Label(free + 2 * after + 1)
}

/// A branch to a label, and the label that is put right after it.
#[derive(Drop)]
struct Head {
    test: Test,
    args: Seq<Spot>,
    to: Label,
    on: Label,
}

/// What an exit to a branch becomes: it goes to a label right after it, where the test is
/// again.
#[derive(Drop)]
struct Turn {
    here: Label,
    head: Head,
    /// Whether the test goes to the label of the branch, and not its opposite to where the branch
    /// goes on.
    keeps: bool,
}

/// The branch that the line is, if it is one.
fn head_by(line: &Line, on: Label) -> Result<Option<Head>, AllocError>
    ensures { IfOk result (λ head. (free : ℕ) (next : List Line) →
        on ≡ label_on free (length next) →
        option_map head_view head ≡ head_by free line.now.op line.now.args line.now.results next) }
{
    if !line.results.is_empty() {
        return Ok(None);
    }
    match &line.op {
        LinOp::Flow(Flow::Branch { test, label }) => {
            let args = line.args.clone()?;
            Ok(Some(Head {
                test: *test,
                args,
                to: *label,
                on,
            }))
        }
        LinOp::Flow(Flow::Label(_)) => Ok(None),
        LinOp::Flow(Flow::Jump(_)) => Ok(None),
        LinOp::Flow(Flow::Exit(_)) => Ok(None),
        LinOp::Flow(Flow::Switch(_)) => Ok(None),
        LinOp::Flow(Flow::PushTrap(_)) => Ok(None),
        LinOp::Flow(Flow::PopTrap) => Ok(None),
        LinOp::Flow(Flow::EnterTrap) => Ok(None),
        LinOp::Op(_) => Ok(None),
    }
}

/// The number of lines after a place.
fn lines_after(lin: &Lin, place: u32) -> u32
    requires place { place < length lin.now.code }
    requires small { length lin.now.code < 2 ^ 32 }
    ensures { (i : Line) (next : List Line) → drop place lin.now.code ≡ i ∷ next →
        result ≡ length next }
{
    lin.code.len() as u32 - place - 1
}

/// The branch at the place, if one is there.
fn head_at(lin: &Lin, free: u32, place: u32) -> Result<Option<Head>, AllocError>
    requires { free + 2 * length lin.now.code < 2 ^ 32 }
    ensures { IfOk result (λ head.
        option_map head_view head ≡ head_at free (drop place lin.now.code)) }
{
    if place as usize >= lin.code.len() {
        return Ok(None);
    }
    let on = label_on(free, lines_after(lin, place));
    head_by(&lin.code.as_slice()[place as usize], on)
}

/// Whether the label comes first at the place.
fn comes_first(label: Label, code: &[Line], place: u32) -> bool
    ensures { result ≡ comes_first label (drop place code.now) }
{
    if place as usize >= code.len() {
        return false;
    }
    match code[place as usize].op.own_label() {
        None => false,
        Some(own) => own == label,
    }
}

/// Whether the label comes first at the place, or after a jump or an exit that is there.
fn stands_first(label: Label, code: &[Line], place: u32) -> bool
    requires { length code.now < 2 ^ 32 }
    ensures { result ≡ stands_first label (drop place code.now) }
{
    if place as usize >= code.len() {
        return false;
    }
    if goes_away(&code[place as usize].op) {
        return comes_first(label, code, place + 1);
    }
    comes_first(label, code, place)
}

/// The branch to which the line at the place leads, if it is an exit to one that is not
/// there already.
fn exit_head(
    lin: &Lin,
    labels: &LineLabels,
    free: u32,
    place: u32,
) -> Result<Option<Head>, AllocError>
    requires place { place < length lin.now.code }
    requires room { free + 2 * length lin.now.code < 2 ^ 32 }
    requires labels { AreLabelsOf lin.now labels.now }
    ensures { IfOk result (λ head. (i : Line) (next : List Line) →
        drop place lin.now.code ≡ i ∷ next →
        option_map head_view head ≡ exit_head lin.now free i.op i.args i.results next) }
{
    let code = lin.code.as_slice();
    match exit_of(&code[place as usize]) {
        None => Ok(None),
        Some(label) => {
            if stands_first(label, code, place + 1) {
                return Ok(None);
            }
            head_at(lin, free, labels.place_of(label))
        }
    }
}

/// What the line at the place becomes, if it is an exit to a branch. The label of the branch is
/// kept where it is before the exit.
fn line_turn(
    lin: &Lin,
    labels: &LineLabels,
    free: u32,
    place: u32,
) -> Result<Option<Turn>, AllocError>
    requires place { place < length lin.now.code }
    requires room { free + 2 * length lin.now.code < 2 ^ 32 }
    requires labels { AreLabelsOf lin.now labels.now }
    ensures { IfOk result (λ turn. (i : Line) (next : List Line) →
        drop place lin.now.code ≡ i ∷ next →
        option_map turn_view turn ≡ line_turn lin.now free i next) }
{
    match exit_head(lin, labels, free, place)? {
        None => Ok(None),
        Some(head) => {
            let here = label_here(free, lines_after(lin, place));
            let keeps = labels.place_of(head.to) <= place + 1;
            Ok(Some(Turn { here, head, keeps }))
        }
    }
}

/// What becomes of the lines of a function.
#[derive(Drop)]
pub struct Changes {
    /// What each line becomes, if it is turned, from the last line to the first.
    turns: Vec<Option<Turn>>,

    /// The labels that are put after branches.
    opened: BTreeSet<u32>,

    /// How many lines are new.
    new_lines: usize,
}

impl Changes {
    /// What becomes of no lines. There is room for so many.
    fn new(alloc: Global, room: usize) -> Result<Changes, AllocError>
        ensures turns { IfOk result (λ changes. turns_in changes ≡ []) }
        ensures opened { IfOk result (λ changes. (l : ℕ) → is_opened changes l ≡ false) }
    {
        let turns = Vec::with_capacity(alloc, room)?;
        Ok(Changes {
            turns,
            opened: BTreeSet::new(alloc),
            new_lines: 0,
        })
    }

    /// Marks the label of the branch whose test is repeated.
    fn open(&mut self, turn: &Option<Turn>) -> Result<(), AllocError>
        ensures turns { IfOk result (λ _. self.new.turns ≡ self.old.turns) }
        ensures opened { IfOk result (λ _. (l : ℕ) → is_opened self.new l ≡
            (is_on l (option_map turn_view turn.now) || is_opened self.old l)) }
    {
        match turn {
            None => Ok(()),
            Some(turn) => {
                let is_new = self.opened.insert(turn.head.on.0)?;
                let more = if is_new { 4 } else { 3 };
                self.new_lines = self.new_lines.saturating_add(more);
                Ok(())
            }
        }
    }

    /// Enters what one more line becomes, before the others.
    fn put(&mut self, turn: Option<Turn>) -> Result<(), AllocError>
        ensures turns { IfOk result (λ _.
            turns_in self.new ≡ option_map turn_view turn ∷ turns_in self.old) }
        ensures opened { IfOk result (λ _. (l : ℕ) → is_opened self.new l ≡
            (is_on l (option_map turn_view turn) || is_opened self.old l)) }
    {
        self.open(&turn)?;
        self.turns.push(turn)?;
        Ok(())
    }

    /// What becomes of the lines of a function.
    fn of_function(alloc: Global, lin: &Lin, free: u32) -> Result<Changes, AllocError>
        requires { free + 2 * length lin.now.code < 2 ^ 32 }
        ensures { IfOk result (AreChanges lin.now free lin.now.code) }
    {
        let labels = LineLabels::of_function(alloc, lin)?;
        let mut changes = Changes::new(alloc, lin.code.len())?;
        let mut place = lin.code.len() as u32;
        while place > 0 {
            place -= 1;
            changes.put(line_turn(lin, &labels, free, place)?)?;
        }
        Ok(changes)
    }

    /// What the first line becomes, if it is turned. Then the next line is the first.
    fn take(&mut self) -> Option<Turn>
        ensures opened { self.new.opened ≡ self.old.opened }
        ensures first { option_map turn_view result ≡ first_turn (turns_in self.old) }
        ensures others { turns_in self.new ≡ others_of (turns_in self.old) }
    {
        match self.turns.pop() {
            None => None,
            Some(turn) => turn,
        }
    }

    /// Whether the label is put after a branch.
    fn is_opened(&self, label: Label) -> bool
        ensures { result ≡ is_opened self.now label }
    {
        self.opened.contains(&label.0)
    }

    /// The label that is put after the line before all others.
    fn label_put(&self, free: u32) -> Option<Label>
        requires { suc (free + 2 * length (turns_in self.now)) < 2 ^ 32 }
        ensures { result ≡ opened_in self.now free (length (turns_in self.now)) }
    {
        let label = label_on(free, self.turns.len() as u32);
        if self.is_opened(label) {
            Some(label)
        } else {
            None
        }
    }

    /// The lines of the function, changed.
    fn change(mut self, alloc: Global, free: u32, code: Seq<Line>) -> Result<Seq<Line>, AllocError>
        requires { suc (free + 2 * length (turns_in self)) < 2 ^ 32 }
        ensures { IfOk result (λ turned.
            turned ≡ turned_by (opened_in self free) (turns_in self) code) }
    {
        let mut turned = Vec::with_capacity(alloc, code.len().saturating_add(self.new_lines))?;
        for line in code.into_vec() {
            let turn = self.take();
            let label = self.label_put(free);
            push_turned(alloc, &mut turned, line, turn, label)?;
        }
        Ok(Seq::from_vec(turned))
    }
}

/// Adds the label, if there is one.
fn push_label(alloc: Global, code: &mut Vec<Line>, label: Option<Label>) -> Result<(), AllocError>
    ensures { IfOk result (λ _. code.new.items ≡ code.old.items ++ label_put label) }
{
    if let Some(label) = label {
        code.push(bare(alloc, Flow::Label(label)))?;
    }
    Ok(())
}

/// A branch. It takes no memory.
fn branch_line(alloc: Global, test: Test, label: Label, args: Seq<Spot>) -> Line
    ensures { result ≡ branch_line test label args }
{
    Line {
        op: LinOp::Flow(Flow::Branch { test, label }),
        args,
        results: Seq::new(alloc),
    }
}

/// Adds the test of a branch, and a jump to where it does not go.
fn push_test(alloc: Global, code: &mut Vec<Line>, keeps: bool, head: Head) -> Result<(), AllocError>
    ensures { IfOk result (λ _.
        code.new.items ≡ code.old.items ++ tested_again keeps (head_view head)) }
{
    let Head { test, args, to, on } = head;
    if keeps {
        code.push(branch_line(alloc, test, to, args))?;
        code.push(bare(alloc, Flow::Jump(on)))?;
    } else {
        code.push(branch_line(alloc, opposite_test(test), on, args))?;
        code.push(bare(alloc, Flow::Jump(to)))?;
    }
    Ok(())
}

/// Adds what an exit becomes that is turned.
fn push_turn(alloc: Global, code: &mut Vec<Line>, turn: Turn) -> Result<(), AllocError>
    ensures { IfOk result (λ _. (label : Option ℕ) (line : Line) →
        code.new.items ≡ code.old.items ++ turned_line (Some (turn_view turn)) label line) }
{
    let Turn { here, head, keeps } = turn;
    code.push(bare(alloc, Flow::Exit(here)))?;
    code.push(bare(alloc, Flow::Label(here)))?;
    push_test(alloc, code, keeps, head)
}

/// Adds what the line becomes.
fn push_turned(
    alloc: Global,
    code: &mut Vec<Line>,
    line: Line,
    turn: Option<Turn>,
    label: Option<Label>,
) -> Result<(), AllocError>
    ensures { IfOk result (λ _.
        code.new.items ≡ code.old.items ++ turned_line (option_map turn_view turn) label line) }
{
    match turn {
        None => {
            code.push(line)?;
            push_label(alloc, code, label)
        }
        Some(turn) => push_turn(alloc, code, turn),
    }
}

/// The function in which each exit that leads to a branch goes to a label right after it, where
/// that branch is repeated. So a turn of a loop ends with its test, and not with a jump to it.
/// An exit that is right before its branch is left as it is.
///
/// There have to be two labels for each line that are free. The only error is want of memory.
pub fn turn_loops(alloc: Global, lin: Lin) -> Result<Lin, AllocError>
    requires { HasLabels lin }
    ensures { IfOk result (λ turned. turned ≡ turned_all lin) }
{
    let free = first_free(lin.code.as_slice()) as u32;
    let changes = Changes::of_function(alloc, &lin, free)?;
    let Lin {
        name,
        params,
        result,
        slots,
        code,
    } = lin;
    let code = changes.change(alloc, free, code)?;
    Ok(Lin {
        name,
        params,
        result,
        slots,
        code,
    })
}
