//! Operands: the order of their code, and those that need none.
ghost use Rattle.std.specs.Prelude.{◌≡◌, ◌+◌, ◌<◌, ◌≤◌, length, OnOk};
ghost use Rattle.cmm_tree.specs.Rows.{expressions_of};
ghost use Rattle.cmm_tree.specs.View.{expr_view};
ghost use Rattle.cmm_types.specs.Annotated.{IsAnnotated};
ghost use Rattle.cmm_types.specs.Lists.{AreAnnotated};
ghost use Rattle.selection_rules.specs.Select.{ordered, width_row};
ghost use Rattle.selection_operands.specs.Below.{selected_code, MayCall, SelectsExpression};
ghost use Rattle.selection_operands.specs.Operands.{is_due, operand_code, row_code};
ghost use Rattle.selection_scope.specs.Room.{HasExpressionRoom, indexes_in_row, most_numbers, most_tries};
ghost use Rattle.selection_scope.specs.Scoping.{scoped_names};

use cmm_tree::Expr;
use mach_ir::Reg;
use selection_code::backwards::Backwards;
use selection_scope::light::is_light_address;
use selection_scope::place::{Place, fresh, operand_at};
use selection_scope::scope::Scope;
use selection_scope::width::behind;
use std::alloc::AllocError;

/// What selects the expressions below a node, whose numbers begin with this one or a later one.
#[derive(Drop)]
pub struct Below<'f, F> {
    /// The least number with which those of such an expression begin.
    pub first: u32,
    /// Selects one such expression.
    pub select: &'f F,
}

/// An operand: the register for its value, and the first of its own numbers. Where the instruction has a constant in its
/// place it needs no code.
#[derive(Clone, Copy)]
pub struct Operand<'e> {
    /// The expression.
    pub expr: &'e Expr,
    /// The register for its value.
    pub reg: Reg,
    /// The first of its own numbers.
    pub base: u32,
    /// Whether it needs code: the instruction has no constant in its place.
    pub needed: bool,
}

/// When an operand of a row gets its value: light addresses wait until the others have theirs.
#[derive(Clone, Copy)]
pub enum Timing {
    /// With those that do not wait.
    Eager,
    /// With the light addresses.
    Deferred,
}

/// An expression. The only error is want of memory.
pub fn one<F: Fn(&mut Scope, &mut Backwards, Place, &Expr) -> Result<(), AllocError>>(
    below: &Below<'_, F>,
    scope: &mut Scope,
    code: &mut Backwards,
    place: Place,
    expr: &Expr,
) -> Result<(), AllocError>
    requires callable { MayCall (F.pre below.now.select.now) below.now.first }
    requires selects { SelectsExpression (F.post below.now.select.now) below.now.first }
    requires tries { most_tries scope.old.labels ≤ below.now.first }
    requires begins { below.now.first ≤ place.base }
    requires room { HasExpressionRoom place.base (expr_view expr.now) }
    requires typed { IsAnnotated (scoped_names scope.old) expr.now }
    ensures code { OnOk result (code.new ≡ selected_code scope.old place expr.now code.old) }
    ensures scope { OnOk result (scope.new ≡ scope.old) }
{
    (below.select)(scope, code, place, expr)
}

/// An operand. The only error is want of memory.
pub fn put_operand<F: Fn(&mut Scope, &mut Backwards, Place, &Expr) -> Result<(), AllocError>>(
    below: &Below<'_, F>,
    scope: &mut Scope,
    code: &mut Backwards,
    operand: &Operand<'_>,
) -> Result<(), AllocError>
    requires callable { MayCall (F.pre below.now.select.now) below.now.first }
    requires selects { SelectsExpression (F.post below.now.select.now) below.now.first }
    requires tries { most_tries scope.old.labels ≤ below.now.first }
    requires begins { below.now.first ≤ operand.now.base }
    requires room { HasExpressionRoom operand.now.base (expr_view operand.now.expr.now) }
    requires typed { IsAnnotated (scoped_names scope.old) operand.now.expr.now }
    ensures code { OnOk result (code.new ≡ operand_code scope.old operand.now code.old) }
    ensures scope { OnOk result (scope.new ≡ scope.old) }
{
    if operand.needed {
        let place = operand_at(operand.reg, operand.base);
        return one(below, scope, code, place, operand.expr);
    }
    Ok(())
}

/// Two operands, the left one first or the right one. The only error is want of memory.
pub fn both<F: Fn(&mut Scope, &mut Backwards, Place, &Expr) -> Result<(), AllocError>>(
    below: &Below<'_, F>,
    scope: &mut Scope,
    code: &mut Backwards,
    left_first: bool,
    left: &Operand<'_>,
    right: &Operand<'_>,
) -> Result<(), AllocError>
    requires callable { MayCall (F.pre below.now.select.now) below.now.first }
    requires selects { SelectsExpression (F.post below.now.select.now) below.now.first }
    requires tries { most_tries scope.old.labels ≤ below.now.first }
    requires left_begins { below.now.first ≤ left.now.base }
    requires right_begins { below.now.first ≤ right.now.base }
    requires left_room { HasExpressionRoom left.now.base (expr_view left.now.expr.now) }
    requires right_room { HasExpressionRoom right.now.base (expr_view right.now.expr.now) }
    requires left_typed { IsAnnotated (scoped_names scope.old) left.now.expr.now }
    requires right_typed { IsAnnotated (scoped_names scope.old) right.now.expr.now }
    ensures code { OnOk result (code.new ≡ ordered left_first
        (operand_code scope.old left.now) (operand_code scope.old right.now) code.old) }
    ensures scope { OnOk result (scope.new ≡ scope.old) }
{
    if left_first {
        put_operand(below, scope, code, right)?;
        put_operand(below, scope, code, left)
    } else {
        put_operand(below, scope, code, left)?;
        put_operand(below, scope, code, right)
    }
}

/// Whether an operand is due then, by whether it is a light address.
fn is_due(timing: Timing, light: bool) -> bool
    ensures { result ≡ is_due timing light }
{
    match timing {
        Timing::Eager => !light,
        Timing::Deferred => light,
    }
}

/// The operands of a row that get their values then. Their registers have the numbers from `number` on, and their own
/// numbers begin with `first`. The only error is want of memory.
pub fn put_row<F: Fn(&mut Scope, &mut Backwards, Place, &Expr) -> Result<(), AllocError>>(
    below: &Below<'_, F>,
    scope: &mut Scope,
    code: &mut Backwards,
    timing: Timing,
    number: u32,
    first: u32,
    exprs: &[Expr],
) -> Result<(), AllocError>
    requires callable { MayCall (F.pre below.now.select.now) below.now.first }
    requires selects { SelectsExpression (F.post below.now.select.now) below.now.first }
    requires tries { most_tries scope.old.labels ≤ below.now.first }
    requires begins { below.now.first ≤ first }
    requires numbers { number + length exprs.now < most_numbers }
    requires room { first + (width_row (expressions_of exprs.now) + indexes_in_row (expressions_of exprs.now))
        < most_numbers + length exprs.now }
    requires typed { AreAnnotated (scoped_names scope.old) exprs.now }
    ensures code { OnOk result (code.new ≡ row_code timing scope.old number first (expressions_of exprs.now) code.old) }
    ensures scope { OnOk result (scope.new ≡ scope.old) }
{
    let mut reg = number;
    let mut base = first;
    let mut rest = exprs;
    while let [expr, others @ ..] = rest {
        let light = is_light_address(scope, expr);
        let next = Operand {
            expr,
            reg: fresh(reg, expr.ty),
            base,
            needed: is_due(timing, light),
        };
        put_operand(below, scope, code, &next)?;
        reg += 1;
        base = behind(base, expr);
        rest = others;
    }
    Ok(())
}
