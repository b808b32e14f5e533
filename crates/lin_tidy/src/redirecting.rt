//! Jumps that go at once where others lead.
ghost use Rattle.std.specs.Option.{option_copied};
ghost use Rattle.std.specs.Prelude.{◌≡◌, ◌<◌, ◌^◌, ℕ, None, cond, drop, length, map, nat_eq, IfOk};
ghost use Rattle.lin_ir.specs.Meaning.{has_label};
ghost use Rattle.lin_flow.specs.Labels.{AreLabelsOf};
ghost use Rattle.lin_tidy_rules.specs.Redirecting.{exit_or_jump, redirected_operation, redirect, leads_to, leaves_to, final_label, last_exit, redirected_all};
ghost use Rattle.lin_tidy.specs.Targets.{first_line, target_in, exit_in, AreTargets};

use lin_flow::LineLabels;
use lin_ir::{Flow, Lin, LinOp, Line};
use lin_unused::forms::{exit_of, is_label, jump_of};
use mach_ir::{Label, Seq};
use std::alloc::{AllocError, Global};
use std::collections::BTreeMap;

/// The first line from the place on that is no label.
fn first_line(code: &[Line], place: usize) -> Option<&Line>
    ensures { option_copied result ≡ first_line (drop place code.now) }
{
    for at in place..code.len() {
        let line = &code[at];
        if !is_label(line) {
            return Some(line);
        }
    }
    None
}

/// The label to which the first line from the place on that is no label jumps, if it is a jump.
fn jump_from(code: &[Line], place: usize) -> Option<Label>
    ensures { result ≡ leads_to (drop place code.now) }
{
    jump_of(first_line(code, place)?)
}

/// The label to which the first line from the place on that is no label exits, if it is an exit.
fn exit_from(code: &[Line], place: usize) -> Option<Label>
    ensures { result ≡ leaves_to (drop place code.now) }
{
    exit_of(first_line(code, place)?)
}

/// The label to which control goes on from a label by labels and jumps alone. Jumps that lead round
/// are followed once for each line.
fn last_label(lin: &Lin, labels: &LineLabels, label: Label) -> Label
    requires { AreLabelsOf lin.now labels.now }
    ensures { result ≡ final_label lin.now label }
{
    let mut last = label;
    for _line in 0..lin.code.len() {
        match jump_from(lin.code.as_slice(), labels.place_of(last) as usize) {
            None => return last,
            Some(next) => {
                last = next;
            }
        }
    }
    last
}

/// The label to which control goes on from a label by labels and jumps, one exit, and labels and
/// jumps again.
fn last_exit(lin: &Lin, labels: &LineLabels, label: Label) -> Option<Label>
    requires { AreLabelsOf lin.now labels.now }
    ensures { result ≡ last_exit lin.now label }
{
    let last = last_label(lin, labels, label);
    match exit_from(lin.code.as_slice(), labels.place_of(last) as usize) {
        None => None,
        Some(out) => Some(last_label(lin, labels, out)),
    }
}

/// Where control comes from a label.
#[derive(Drop)]
struct Way {
    /// By labels and jumps alone.
    label: Label,
    /// By an exit that is there, and labels and jumps again.
    exit: Option<Label>,
}

/// Where jumps to labels go instead.
#[derive(Drop)]
pub struct Targets {
    ways: BTreeMap<u32, Way>,
}

impl Targets {
    /// Every label is its own target.
    fn new(alloc: Global) -> Targets
        ensures to { (l : ℕ) → target_in result l ≡ l }
        ensures exits { (l : ℕ) → exit_in result l ≡ None }
    {
        Targets {
            ways: BTreeMap::new(alloc),
        }
    }

    /// Where branches to the label go: to itself where nothing is known of it.
    fn target_of(&self, label: Label) -> Label
        ensures { result ≡ target_in self.now label }
    {
        match self.ways.get(&label.0) {
            None => label,
            Some(way) => way.label,
        }
    }

    /// Where jumps to the label exit, if they lead to an exit.
    fn exit_of(&self, label: Label) -> Option<Label>
        ensures { result ≡ exit_in self.now label }
    {
        match self.ways.get(&label.0) {
            None => None,
            Some(way) => way.exit,
        }
    }

    /// Enters where control comes from the label.
    fn put(&mut self, label: Label, way: Way) -> Result<(), AllocError>
        ensures to { IfOk result (λ _. (l : ℕ) →
            target_in self.new l ≡ cond (nat_eq label l) way.label (target_in self.old l)) }
        ensures exits { IfOk result (λ _. (l : ℕ) →
            exit_in self.new l ≡ cond (nat_eq label l) way.exit (exit_in self.old l)) }
    {
        self.ways.insert(label.0, way)?;
        Ok(())
    }

    /// Enters where control comes from the label of a line, if it has one.
    fn put_line(&mut self, lin: &Lin, labels: &LineLabels, line: &Line) -> Result<(), AllocError>
        requires { AreLabelsOf lin.now labels.now }
        ensures to { IfOk result (λ _. (l : ℕ) → target_in self.new l ≡
            cond (has_label l line.now.op) (final_label lin.now l) (target_in self.old l)) }
        ensures exits { IfOk result (λ _. (l : ℕ) → exit_in self.new l ≡
            cond (has_label l line.now.op) (last_exit lin.now l) (exit_in self.old l)) }
    {
        match &line.op {
            LinOp::Flow(Flow::Label(label)) => {
                let way = Way {
                    label: last_label(lin, labels, *label),
                    exit: last_exit(lin, labels, *label),
                };
                self.put(*label, way)
            }
            LinOp::Flow(Flow::Jump(_)) => Ok(()),
            LinOp::Flow(Flow::Exit(_)) => Ok(()),
            LinOp::Flow(Flow::Branch { test: _, label: _ }) => Ok(()),
            LinOp::Flow(Flow::Switch(_)) => Ok(()),
            LinOp::Flow(Flow::PushTrap(_)) => Ok(()),
            LinOp::Flow(Flow::PopTrap) => Ok(()),
            LinOp::Flow(Flow::EnterTrap) => Ok(()),
            LinOp::Op(_) => Ok(()),
        }
    }

    /// For each label of a function, where control goes on to from it.
    fn of_function(alloc: Global, lin: &Lin) -> Result<Targets, AllocError>
        requires { length lin.now.code < 2 ^ 32 }
        ensures { IfOk result (AreTargets lin.now) }
    {
        let labels = LineLabels::of_function(alloc, lin)?;
        let mut targets = Targets::new(alloc);
        for line in lin.code.as_slice() {
            targets.put_line(lin, &labels, line)?;
        }
        Ok(targets)
    }

    /// What a jump to the label becomes.
    fn redirect_jump(&self, label: Label) -> Flow
        ensures { result ≡ exit_or_jump (exit_in self.now label) (target_in self.now label) }
    {
        match self.exit_of(label) {
            None => Flow::Jump(self.target_of(label)),
            Some(out) => Flow::Exit(out),
        }
    }

    fn redirect_flow(&self, flow: Flow) -> Flow
        ensures { LinOp.Flow result ≡
            redirected_operation (target_in self.now) (exit_in self.now) (LinOp.Flow flow) }
    {
        match flow {
            Flow::Jump(label) => self.redirect_jump(label),
            Flow::Exit(label) => Flow::Exit(self.target_of(label)),
            Flow::Branch { test, label } => Flow::Branch {
                test,
                label: self.target_of(label),
            },
            Flow::Label(label) => Flow::Label(label),
            Flow::Switch(labels) => Flow::Switch(labels),
            Flow::PushTrap(label) => Flow::PushTrap(label),
            Flow::PopTrap => Flow::PopTrap,
            Flow::EnterTrap => Flow::EnterTrap,
        }
    }

    fn redirect(&self, line: Line) -> Line
        ensures { result ≡ redirect (target_in self.now) (exit_in self.now) line }
    {
        let Line { op, args, results } = line;
        let op = match op {
            LinOp::Op(op) => LinOp::Op(op),
            LinOp::Flow(flow) => LinOp::Flow(self.redirect_flow(flow)),
        };
        Line { op, args, results }
    }

    fn redirect_code(&self, alloc: Global, code: Seq<Line>) -> Result<Seq<Line>, AllocError>
        ensures { IfOk result (λ turned.
            turned ≡ map (redirect (target_in self.now) (exit_in self.now)) code) }
    {
        let mut turned = Vec::with_capacity(alloc, code.len())?;
        for line in code.into_vec() {
            turned.push(self.redirect(line))?;
        }
        Ok(Seq::from_vec(turned))
    }
}

/// The function in which jumps, exits and branches go at once where the jumps lead to which they go.
/// A jump that leads to an exit is an exit itself: so a turn of a loop that ended in such a jump has one
/// instruction less. The only error is want of memory.
pub fn redirect_jumps(alloc: Global, lin: Lin) -> Result<Lin, AllocError>
    requires { length lin.code < 2 ^ 32 }
    ensures { IfOk result (λ redirected_operation. redirected_operation ≡ redirected_all lin) }
{
    let targets = Targets::of_function(alloc, &lin)?;
    let Lin {
        name,
        params,
        result,
        slots,
        code,
    } = lin;
    let code = targets.redirect_code(alloc, code)?;
    Ok(Lin {
        name,
        params,
        result,
        slots,
        code,
    })
}
