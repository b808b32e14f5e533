//! Choices and sequences.
ghost use Rattle.std.specs.Prelude.{◌≡◌, ℕ, ◌+◌, ◌<◌, ◌≤◌, ◌∷◌, [], false, length, map, List, Some, IfOk, OnOk};
ghost use Rattle.bs_words.specs.declared.operators.IntOp.{IntOp};
ghost use Rattle.cmm_meaning.specs.Choices.{is_named};
ghost use Rattle.cmm_tree.specs.Rows.{expressions_of, cases_of};
ghost use Rattle.cmm_tree.specs.Tree.{Operator, Seq as Sequence, If, Switch};
ghost use Rattle.cmm_tree.specs.View.{expr_view, index_view};
ghost use Rattle.cmm_types.specs.Annotated.{IsAnnotated};
ghost use Rattle.cmm_types.specs.Lists.{AreAnnotated, AreCasesAnnotated};
ghost use Rattle.cmm_types.specs.Types.{type_of};
ghost use Rattle.mach_ir.specs.Formed.{indexes_to_label};
ghost use Rattle.mach_ir.specs.declared.mach.Test.TheVariants as test;
ghost use Rattle.selection_rules.specs.Instructions as emit;
ghost use Rattle.selection_rules.specs.Select.{select, select_cases, select_test, comparison, operation_shape, shape_op, shape_right, label_of_last_case};
ghost use Rattle.selection_rules.specs.Select.{switch_labels, width, width_row, width_cases};
ghost use Rattle.selection_operands.specs.Below.{node_code, MayCall, SelectsExpression};
ghost use Rattle.mach_ir.specs.declared.mach.Instr.{Instr};
ghost use Rattle.selection_control.specs.Rows.{select_dropped};
ghost use Rattle.selection_code.specs.Shapes.{shape_view};
ghost use Rattle.selection_scope.specs.Room.{HasExpressionRoom, indexes_in, indexes_in_row, indexes_in_cases, most_numbers, most_tries};
ghost use Rattle.selection_scope.specs.Scoping.{scoped_names};

use bs_words::IntOp;
use cmm_tree::{Case, CaseIndex, Expr};
use mach_ir::{Label, Mark, Seq, Test};
use selection_code::backwards::Backwards;
use selection_code::shape::{Shape, comparison, shape_of};
use selection_operands::operands::{Below, Operand, both, one};
use selection_scope::light::is_left_first;
use selection_scope::outline::{Outline, outline_of};
use selection_scope::place::{Node, Place, fresh, operand_at};
use selection_scope::scope::Scope;
use selection_scope::width::{behind, behind_cases, behind_row, width_of};
use std::alloc::{AllocError, Global};

/// An operator on two operands. The only error is want of memory.
pub fn operator<F: Fn(&mut Scope, &mut Backwards, Place, &Expr) -> Result<(), AllocError>>(
    below: &Below<'_, F>,
    scope: &mut Scope,
    code: &mut Backwards,
    node: Node,
    op: IntOp,
    left: &Expr,
    right: &Expr,
) -> Result<(), AllocError>
    requires callable { MayCall (F.pre below.now.select.now) below.now.first }
    requires selects { SelectsExpression (F.post below.now.select.now) below.now.first }
    requires tries { most_tries scope.old.labels ≤ node.place.base }
    requires begins { below.now.first ≡ node.place.base + 1 }
    requires room { HasExpressionRoom node.place.base
        (Operator 0 op (expr_view left.now) (expr_view right.now)) }
    requires left_typed { IsAnnotated (scoped_names scope.old) left.now }
    requires right_typed { IsAnnotated (scoped_names scope.old) right.now }
    requires ty { (at : ℕ) → node.ty ≡ type_of (scoped_names scope.old) (Operator at op (expr_view
        left.now) (expr_view right.now)) }
    ensures code { OnOk result ((at : ℕ) → code.new ≡ node_code scope.old node.place
        (Operator at op (expr_view left.now) (expr_view right.now)) code.old) }
    ensures scope { OnOk result (scope.new ≡ scope.old) }
{
    let first = node.place.base + 3;
    let second = behind(first, left);
    let shape = shape_of(op, left, right);
    let first_operand = Operand {
        expr: left,
        reg: fresh(first - 2, left.ty),
        base: first,
        needed: shape.needs_left(),
    };
    let second_operand = Operand {
        expr: right,
        reg: fresh(first - 1, right.ty),
        base: second,
        needed: shape.needs_right(),
    };
    let left_first = is_left_first(scope, left, right);
    code.operator_code(
        shape,
        op,
        first_operand.reg,
        second_operand.reg,
        node.dest(),
    )?;
    both(
        below,
        scope,
        code,
        left_first,
        &first_operand,
        &second_operand,
    )
}

/// The comparison that an `if` takes: where it fails the code goes on at the label `otherwise`. Its numbers begin with
/// `base`.
#[derive(Clone, Copy)]
pub struct Branch {
    /// Where its operands are.
    pub shape: Shape,
    /// The test of them.
    pub test: Test,
    /// Where the code goes on if it fails.
    pub otherwise: Label,
    /// The first of its numbers.
    pub base: u32,
}

/// A comparison that is a test of its own.
fn fused<F: Fn(&mut Scope, &mut Backwards, Place, &Expr) -> Result<(), AllocError>>(
    below: &Below<'_, F>,
    scope: &mut Scope,
    code: &mut Backwards,
    branch: Branch,
    left: &Expr,
    right: &Expr,
) -> Result<(), AllocError>
    requires callable { MayCall (F.pre below.now.select.now) below.now.first }
    requires selects { SelectsExpression (F.post below.now.select.now) below.now.first }
    requires tries { most_tries scope.old.labels ≤ below.now.first }
    requires begins { below.now.first ≤ branch.base }
    requires room { branch.base + (3 + (width (expr_view left.now) + width (expr_view right.now))
        + (indexes_in (expr_view left.now) + indexes_in (expr_view right.now))) < most_numbers }
    requires left_typed { IsAnnotated (scoped_names scope.old) left.now }
    requires right_typed { IsAnnotated (scoped_names scope.old) right.now }
    ensures code { OnOk result ((at : ℕ) (op : IntOp) (value : List Instr) →
        shape_view branch.shape ≡ operation_shape op (expr_view left.now) (expr_view right.now) →
        comparison (shape_op (shape_view branch.shape) op)
        (shape_right (shape_view branch.shape)) ≡ Some branch.test →
        code.new ≡ select_test scope.old.names scope.old.labels branch.otherwise branch.base
        (Operator at op (expr_view left.now) (expr_view right.now)) value code.old) }
    ensures scope { OnOk result (scope.new ≡ scope.old) }
{
    let first = branch.base + 3;
    let second = behind(first, left);
    let first_operand = Operand {
        expr: left,
        reg: fresh(first - 2, left.ty),
        base: first,
        needed: branch.shape.needs_left(),
    };
    let second_operand = Operand {
        expr: right,
        reg: fresh(first - 1, right.ty),
        base: second,
        needed: branch.shape.needs_right(),
    };
    let left_first = is_left_first(scope, left, right);
    code.branch(
        branch.shape,
        branch.test,
        branch.otherwise,
        first_operand.reg,
        second_operand.reg,
    )?;
    both(
        below,
        scope,
        code,
        left_first,
        &first_operand,
        &second_operand,
    )
}

/// A condition whose value is tested.
fn tested<F: Fn(&mut Scope, &mut Backwards, Place, &Expr) -> Result<(), AllocError>>(
    below: &Below<'_, F>,
    scope: &mut Scope,
    code: &mut Backwards,
    otherwise: Label,
    place: Place,
    condition: &Expr,
) -> Result<(), AllocError>
    requires callable { MayCall (F.pre below.now.select.now) below.now.first }
    requires selects { SelectsExpression (F.post below.now.select.now) below.now.first }
    requires tries { most_tries scope.old.labels ≤ below.now.first }
    requires begins { below.now.first ≤ place.base }
    requires room { HasExpressionRoom place.base (expr_view condition.now) }
    requires typed { IsAnnotated (scoped_names scope.old) condition.now }
    requires valued { place.valued ≡ false }
    requires tail { place.tail ≡ false }
    ensures code { OnOk result (code.new ≡ select scope.old.names scope.old.labels false false
        place.dest place.base (expr_view condition.now)
        (emit.branch test.Holds otherwise (place.dest ∷ []) ∷ code.old)) }
    ensures scope { OnOk result (scope.new ≡ scope.old) }
{
    code.branch_on(otherwise, place.dest)?;
    one(below, scope, code, place, condition)
}

/// What an `if` tests: where it fails the code goes on at the label `otherwise`.
#[tactic(auto, using(crate::proofs::Outlines::other_test))]
fn condition<F: Fn(&mut Scope, &mut Backwards, Place, &Expr) -> Result<(), AllocError>>(
    below: &Below<'_, F>,
    scope: &mut Scope,
    code: &mut Backwards,
    otherwise: Label,
    place: Place,
    condition: &Expr,
) -> Result<(), AllocError>
    requires callable { MayCall (F.pre below.now.select.now) below.now.first }
    requires selects { SelectsExpression (F.post below.now.select.now) below.now.first }
    requires tries { most_tries scope.old.labels ≤ below.now.first }
    requires begins { below.now.first ≤ place.base }
    requires room { HasExpressionRoom place.base (expr_view condition.now) }
    requires typed { IsAnnotated (scoped_names scope.old) condition.now }
    requires valued { place.valued ≡ false }
    requires tail { place.tail ≡ false }
    ensures code { OnOk result (code.new ≡ select_test scope.old.names scope.old.labels otherwise
        place.base (expr_view condition.now) (select scope.old.names scope.old.labels false false
        place.dest place.base (expr_view condition.now)
        (emit.branch test.Holds otherwise (place.dest ∷ []) ∷ code.old)) code.old) }
    ensures scope { OnOk result (scope.new ≡ scope.old) }
{
    match outline_of(condition) {
        Outline::Operator(op, left, right) => {
            let shape = shape_of(op, left, right);
            match comparison(shape.op(op), shape.right()) {
                Some(test) => {
                    let branch = Branch {
                        shape,
                        test,
                        otherwise,
                        base: place.base,
                    };
                    fused(below, scope, code, branch, left, right)
                }
                None => tested(below, scope, code, otherwise, place, condition),
            }
        }
        Outline::Integer(_) | Outline::Symbol(_) | Outline::Name(_) | Outline::Other => {
            tested(below, scope, code, otherwise, place, condition)
        }
    }
}

/// A choice of two. The only error is want of memory.
pub fn if_else<F: Fn(&mut Scope, &mut Backwards, Place, &Expr) -> Result<(), AllocError>>(
    below: &Below<'_, F>,
    scope: &mut Scope,
    code: &mut Backwards,
    node: Node,
    condition_of: &Expr,
    on_true: &Expr,
    on_false: &Expr,
) -> Result<(), AllocError>
    requires callable { MayCall (F.pre below.now.select.now) below.now.first }
    requires selects { SelectsExpression (F.post below.now.select.now) below.now.first }
    requires tries { most_tries scope.old.labels ≤ node.place.base }
    requires begins { below.now.first ≡ node.place.base + 1 }
    requires room { HasExpressionRoom node.place.base
        (If 0 (expr_view condition_of.now) (expr_view on_true.now) (expr_view on_false.now)) }
    requires condition_typed { IsAnnotated (scoped_names scope.old) condition_of.now }
    requires true_typed { IsAnnotated (scoped_names scope.old) on_true.now }
    requires false_typed { IsAnnotated (scoped_names scope.old) on_false.now }
    requires ty { (at : ℕ) → node.ty ≡ type_of (scoped_names scope.old) (If at (expr_view
        condition_of.now) (expr_view on_true.now)
        (expr_view on_false.now)) }
    ensures code { OnOk result ((at : ℕ) → code.new ≡ node_code scope.old node.place
        (If at (expr_view condition_of.now) (expr_view on_true.now)
        (expr_view on_false.now)) code.old) }
    ensures scope { OnOk result (scope.new ≡ scope.old) }
{
    let base = node.place.base + 4;
    let label = Label(base - 2);
    let end = Label(base - 1);
    let true_base = behind(base, condition_of);
    let false_base = behind(true_base, on_true);
    code.bare(Mark::End { label: end })?;
    one(below, scope, code, node.part(false_base), on_false)?;
    code.bare(Mark::Else { label, end })?;
    one(below, scope, code, node.part(true_base), on_true)?;
    let place = operand_at(fresh(base - 3, condition_of.ty), base);
    condition(below, scope, code, label, place, condition_of)
}

/// Expressions whose values are dropped. Each has a register, and after it its own numbers.
fn dropped<F: Fn(&mut Scope, &mut Backwards, Place, &Expr) -> Result<(), AllocError>>(
    below: &Below<'_, F>,
    scope: &mut Scope,
    code: &mut Backwards,
    number: u32,
    exprs: &[Expr],
) -> Result<(), AllocError>
    requires callable { MayCall (F.pre below.now.select.now) below.now.first }
    requires selects { SelectsExpression (F.post below.now.select.now) below.now.first }
    requires tries { most_tries scope.old.labels ≤ below.now.first }
    requires begins { below.now.first ≤ number }
    requires room { number + (width_row (expressions_of exprs.now) + indexes_in_row (expressions_of exprs.now))
        < most_numbers }
    requires typed { AreAnnotated (scoped_names scope.old) exprs.now }
    ensures code { OnOk result (code.new ≡ select_dropped scope.old.names scope.old.labels number
        (expressions_of exprs.now) code.old) }
    ensures scope { OnOk result (scope.new ≡ scope.old) }
{
    let mut end = behind_row(number, exprs);
    let mut rest = exprs;
    while let Some((last, others)) = rest.split_last() {
        end = end - width_of(last) - 1;
        let place = operand_at(fresh(end, last.ty), end + 1);
        one(below, scope, code, place, last)?;
        rest = others;
    }
    Ok(())
}

/// Expressions, one after the other. The only error is want of memory.
pub fn seq<F: Fn(&mut Scope, &mut Backwards, Place, &Expr) -> Result<(), AllocError>>(
    below: &Below<'_, F>,
    scope: &mut Scope,
    code: &mut Backwards,
    node: Node,
    elements: &[Expr],
) -> Result<(), AllocError>
    requires callable { MayCall (F.pre below.now.select.now) below.now.first }
    requires selects { SelectsExpression (F.post below.now.select.now) below.now.first }
    requires tries { most_tries scope.old.labels ≤ node.place.base }
    requires begins { below.now.first ≡ node.place.base + 1 }
    requires room { HasExpressionRoom node.place.base (Sequence 0 (expressions_of elements.now)) }
    requires typed { AreAnnotated (scoped_names scope.old) elements.now }
    requires ty { (at : ℕ) → node.ty ≡ type_of (scoped_names scope.old) (Sequence at (expressions_of
        elements.now)) }
    ensures code { OnOk result ((at : ℕ) → code.new ≡ node_code scope.old node.place
        (Sequence at (expressions_of elements.now)) code.old) }
    ensures scope { OnOk result (scope.new ≡ scope.old) }
{
    let first = node.place.base + 1;
    match elements.split_last() {
        None => Ok(()),
        Some((last, others)) => {
            let base = behind_row(first, others) + 1;
            one(below, scope, code, node.part(base), last)?;
            dropped(below, scope, code, first, others)
        }
    }
}

/// Whether the case names the number.
fn is_named(indexes: &[CaseIndex], number: u64) -> bool
    ensures { result ≡ is_named (map index_view indexes.now) number }
{
    for index in indexes {
        if index.index == number {
            return true;
        }
    }
    false
}

/// The label of the last case that names the number, where the first has this label, or else the one so far.
fn last_label(first: u32, cases: &[Case], number: u64, so_far: u32) -> Label
    requires { first + length cases.now < most_numbers }
    ensures { result ≡ label_of_last_case first (cases_of cases.now) number so_far }
{
    let mut found = so_far;
    let mut label = first;
    let mut rest = cases;
    while let [case, others @ ..] = rest {
        if is_named(case.indexes.as_slice(), number) {
            found = label;
        }
        label += 1;
        rest = others;
    }
    Label(found)
}

/// For each number below `size` the label of its case.
fn switch_labels(
    alloc: Global,
    first: u32,
    cases: &[Case],
    size: u64,
) -> Result<Vec<Label>, AllocError>
    requires { first + length cases.now < most_numbers }
    ensures { IfOk result (λ labels. labels.items ≡ switch_labels first
        (cases_of cases.now) 0 size) }
{
    let mut labels = Vec::new(alloc);
    for number in 0..size {
        labels.push(last_label(first, cases, number, first))?;
    }
    Ok(labels)
}

/// The numbers that the switch takes to this label.
fn indexes_of(alloc: Global, label: Label, all: &[Label]) -> Result<Seq<u32>, AllocError>
    requires { length all.now < most_numbers }
    ensures { IfOk result (λ indexes. indexes ≡ indexes_to_label label 0 all.now) }
{
    let mut indexes = Vec::new(alloc);
    let mut number = 0;
    let mut rest = all;
    while let [target, others @ ..] = rest {
        if target.0 == label.0 {
            indexes.push(number)?;
        }
        number += 1;
        rest = others;
    }
    Ok(Seq::from_vec(indexes))
}

/// The cases of a switch: for each number the label of its case, the label of the end, that of the first case, and the
/// cases.
#[derive(Clone, Copy)]
struct Choices<'e> {
    all: &'e [Label],
    end: u32,
    first: u32,
    cases: &'e [Case],
}

/// The bodies of cases.
fn case_bodies<F: Fn(&mut Scope, &mut Backwards, Place, &Expr) -> Result<(), AllocError>>(
    below: &Below<'_, F>,
    scope: &mut Scope,
    code: &mut Backwards,
    place: Place,
    choices: Choices<'_>,
) -> Result<(), AllocError>
    requires callable { MayCall (F.pre below.now.select.now) below.now.first }
    requires selects { SelectsExpression (F.post below.now.select.now) below.now.first }
    requires tries { most_tries scope.old.labels ≤ below.now.first }
    requires begins { below.now.first ≤ place.base }
    requires labels { choices.first + length choices.cases.now < most_numbers }
    requires indexes { length choices.all.now < most_numbers }
    requires room { place.base + (width_cases (cases_of choices.cases.now)
        + indexes_in_cases (cases_of choices.cases.now)) < most_numbers }
    requires typed { AreCasesAnnotated (scoped_names scope.old) choices.cases.now }
    ensures code { OnOk result (code.new ≡ select_cases scope.old.names scope.old.labels
        place.valued place.tail place.dest choices.entry.all.now choices.entry.end
        choices.entry.first
        place.base (cases_of choices.entry.cases.now) code.old) }
    ensures scope { OnOk result (scope.new ≡ scope.old) }
{
    let alloc = scope.alloc();
    let mut label = choices.first + choices.cases.len() as u32;
    let mut base = behind_cases(place.base, choices.cases);
    let mut rest = choices.cases;
    while let Some((last, others)) = rest.split_last() {
        label -= 1;
        base -= width_of(&last.body);
        one(below, scope, code, Place { base, ..place }, &last.body)?;
        let indexes = indexes_of(alloc, Label(label), choices.all)?;
        let end = Label(choices.end);
        code.bare(Mark::Case {
            indexes,
            label: Label(label),
            end,
        })?;
        rest = others;
    }
    Ok(())
}

/// A choice by a number. The only error is want of memory.
#[tactic(auto, using(crate::proofs::Rooms::cases_count, crate::proofs::Rooms::labels_count))]
pub fn switch<F: Fn(&mut Scope, &mut Backwards, Place, &Expr) -> Result<(), AllocError>>(
    below: &Below<'_, F>,
    scope: &mut Scope,
    code: &mut Backwards,
    node: Node,
    size: u64,
    selector: &Expr,
    cases: &[Case],
) -> Result<(), AllocError>
    requires callable { MayCall (F.pre below.now.select.now) below.now.first }
    requires selects { SelectsExpression (F.post below.now.select.now) below.now.first }
    requires tries { most_tries scope.old.labels ≤ node.place.base }
    requires begins { below.now.first ≡ node.place.base + 1 }
    requires room { HasExpressionRoom node.place.base
        (Switch 0 0 size (expr_view selector.now) (cases_of cases.now)) }
    requires selector_typed { IsAnnotated (scoped_names scope.old) selector.now }
    requires typed { AreCasesAnnotated (scoped_names scope.old) cases.now }
    requires ty { (at size_at : ℕ) → node.ty ≡ type_of (scoped_names scope.old) (Switch at size_at size
        (expr_view selector.now) (cases_of cases.now)) }
    ensures code { OnOk result ((at size_at : ℕ) → code.new ≡ node_code scope.old node.place
        (Switch at size_at size (expr_view selector.now) (cases_of cases.now)) code.old) }
    ensures scope { OnOk result (scope.new ≡ scope.old) }
{
    let first = node.place.base + 3;
    let end = first - 1;
    let base = first + cases.len() as u32;
    let bodies = behind(base, selector);
    let register = fresh(first - 2, selector.ty);
    let all = switch_labels(scope.alloc(), first, cases, size)?;
    code.bare(Mark::End { label: Label(end) })?;
    let choices = Choices {
        all: all.as_slice(),
        end,
        first,
        cases,
    };
    case_bodies(below, scope, code, node.part(bodies), choices)?;
    code.choose(Seq::from_vec(all), register)?;
    one(below, scope, code, operand_at(register, base), selector)
}
