//! Accesses of memory, and new blocks.
ghost use Rattle.std.specs.Prelude.{◌≡◌, ℕ, ◌+◌, ◌<◌, ◌≤◌, ◌%◌, nat_le, List, length, OnOk};
ghost use Rattle.cmm_tree.specs.Rows.{expressions_of};
ghost use Rattle.cmm_tree.specs.Tree.{Load, Store, Alloc, Checkbound};
ghost use Rattle.cmm_tree.specs.View.{expr_view};
ghost use Rattle.cmm_types.specs.Annotated.{IsAnnotated};
ghost use Rattle.cmm_types.specs.Lists.{AreAnnotated};
ghost use Rattle.cmm_types.specs.Types.{Scoped, type_of};
ghost use Rattle.selection_rules.specs.Select.{base_of, offset_of, chunk_for, cell_stores, regs_of};
ghost use Rattle.selection_operands.specs.Below.{node_code, MayCall, SelectsExpression};
ghost use Rattle.selection_scope.specs.Room.{HasExpressionRoom, most_numbers, most_tries};
ghost use Rattle.selection_scope.specs.Scoping.{scoped_names};

use crate::operands::{Below, Operand, Timing, both, one, put_row};
use bs_words::{Chunk, Ty};
use cmm_tree::Expr;
use mach_ir::Reg;
use selection_code::backwards::Backwards;
use selection_code::shape::{integer, is_based, is_register, right_of_bound};
use selection_scope::light::is_left_first;
use selection_scope::outline::{Outline, outline_of};
use selection_scope::place::{Node, Place, fresh, operand_at};
use selection_scope::scope::Scope;
use selection_scope::seats::regs_of;
use selection_scope::width::behind;
use std::alloc::AllocError;

/// The header of a block is 8 bytes before it.
const HEADER_OFFSET: u64 = 0xFFFF_FFFF_FFFF_FFF8;

/// The address of an access: an expression, and bytes after it.
#[derive(Clone, Copy)]
pub struct Address<'e> {
    /// The expression.
    pub base: &'e Expr,
    /// In bytes, a word that wraps.
    pub offset: u64,
}

/// The address as an access has it: where it is the sum of a base and a short constant no sum is made.
#[tactic(auto, using(crate::proofs::Outlines::other_base, crate::proofs::Outlines::other_offset))]
fn address_of(address: &Expr) -> Address<'_>
    ensures base { expr_view result.base.now ≡ base_of (expr_view address.now) }
    ensures offset { result.offset ≡ offset_of (expr_view address.now) }
    ensures typed { (names : List Scoped) → IsAnnotated names address.now →
        IsAnnotated names result.base.now }
{
    let whole = Address {
        base: address,
        offset: 0,
    };
    match outline_of(address) {
        Outline::Operator(op, base, right) => match integer(right) {
            Some(word) => {
                if is_based(op, word) {
                    Address { base, offset: word }
                } else {
                    whole
                }
            }
            None => whole,
        },
        Outline::Integer(_) | Outline::Symbol(_) | Outline::Name(_) | Outline::Other => whole,
    }
}

/// A load. The only error is want of memory.
pub fn load<F: Fn(&mut Scope, &mut Backwards, Place, &Expr) -> Result<(), AllocError>>(
    below: &Below<'_, F>,
    scope: &mut Scope,
    code: &mut Backwards,
    node: Node,
    chunk: Chunk,
    address: &Expr,
) -> Result<(), AllocError>
    requires callable { MayCall (F.pre below.now.select.now) below.now.first }
    requires selects { SelectsExpression (F.post below.now.select.now) below.now.first }
    requires tries { most_tries scope.old.labels ≤ node.place.base }
    requires begins { below.now.first ≡ node.place.base + 1 }
    requires room { HasExpressionRoom node.place.base (Load 0 chunk (expr_view address.now)) }
    requires typed { IsAnnotated (scoped_names scope.old) address.now }
    requires ty { (at : ℕ) → node.ty ≡ type_of (scoped_names scope.old) (Load at chunk (expr_view
        address.now)) }
    ensures code { OnOk result ((at : ℕ) → code.new ≡ node_code scope.old node.place
        (Load at chunk (expr_view address.now)) code.old) }
    ensures scope { OnOk result (scope.new ≡ scope.old) }
{
    let first = node.place.base + 2;
    let at = address_of(address);
    let register = fresh(first - 1, at.base.ty);
    code.load(chunk, at.offset, register, node.dest())?;
    one(below, scope, code, operand_at(register, first), at.base)
}

/// A store. The only error is want of memory.
pub fn store<F: Fn(&mut Scope, &mut Backwards, Place, &Expr) -> Result<(), AllocError>>(
    below: &Below<'_, F>,
    scope: &mut Scope,
    code: &mut Backwards,
    node: Node,
    chunk: Chunk,
    address: &Expr,
    value: &Expr,
) -> Result<(), AllocError>
    requires callable { MayCall (F.pre below.now.select.now) below.now.first }
    requires selects { SelectsExpression (F.post below.now.select.now) below.now.first }
    requires tries { most_tries scope.old.labels ≤ node.place.base }
    requires begins { below.now.first ≡ node.place.base + 1 }
    requires room { HasExpressionRoom node.place.base
        (Store 0 chunk (expr_view address.now) (expr_view value.now)) }
    requires address_typed { IsAnnotated (scoped_names scope.old) address.now }
    requires value_typed { IsAnnotated (scoped_names scope.old) value.now }
    requires ty { (at : ℕ) → node.ty ≡ type_of (scoped_names scope.old) (Store at chunk (expr_view
        address.now) (expr_view value.now)) }
    ensures code { OnOk result ((at : ℕ) → code.new ≡ node_code scope.old node.place
        (Store at chunk (expr_view address.now) (expr_view value.now)) code.old) }
    ensures scope { OnOk result (scope.new ≡ scope.old) }
{
    let first = node.place.base + 3;
    let second = behind(first, address);
    let at = address_of(address);
    let left = Operand {
        expr: at.base,
        reg: fresh(first - 2, at.base.ty),
        base: first,
        needed: true,
    };
    let right = Operand {
        expr: value,
        reg: fresh(first - 1, value.ty),
        base: second,
        needed: true,
    };
    let left_first = is_left_first(scope, address, value);
    code.store(chunk, at.offset, left.reg, right.reg)?;
    both(below, scope, code, left_first, &left, &right)
}

/// A test of a bound. The only error is want of memory.
pub fn checkbound<F: Fn(&mut Scope, &mut Backwards, Place, &Expr) -> Result<(), AllocError>>(
    below: &Below<'_, F>,
    scope: &mut Scope,
    code: &mut Backwards,
    node: Node,
    bound: &Expr,
    index: &Expr,
) -> Result<(), AllocError>
    requires callable { MayCall (F.pre below.now.select.now) below.now.first }
    requires selects { SelectsExpression (F.post below.now.select.now) below.now.first }
    requires tries { most_tries scope.old.labels ≤ node.place.base }
    requires begins { below.now.first ≡ node.place.base + 1 }
    requires room { HasExpressionRoom node.place.base
        (Checkbound 0 (expr_view bound.now) (expr_view index.now)) }
    requires bound_typed { IsAnnotated (scoped_names scope.old) bound.now }
    requires index_typed { IsAnnotated (scoped_names scope.old) index.now }
    requires ty { (at : ℕ) → node.ty ≡ type_of (scoped_names scope.old) (Checkbound at (expr_view
        bound.now) (expr_view index.now)) }
    ensures code { OnOk result ((at : ℕ) → code.new ≡ node_code scope.old node.place
        (Checkbound at (expr_view bound.now) (expr_view index.now)) code.old) }
    ensures scope { OnOk result (scope.new ≡ scope.old) }
{
    let first = node.place.base + 3;
    let second = behind(first, bound);
    let right_of = right_of_bound(index);
    let left = Operand {
        expr: bound,
        reg: fresh(first - 2, bound.ty),
        base: first,
        needed: true,
    };
    let right = Operand {
        expr: index,
        reg: fresh(first - 1, index.ty),
        base: second,
        needed: is_register(right_of),
    };
    let left_first = is_left_first(scope, bound, index);
    code.checkbound(right_of, left.reg, right.reg)?;
    both(below, scope, code, left_first, &left, &right)
}

/// What the cells of a block with this header are written by: a block whose tag is 250 or less is scanned.
fn chunk_of_cells(header: u64) -> Chunk
    ensures { result ≡ chunk_for (nat_le (header % 256) 250) }
{
    if header % 256 <= 250 {
        Chunk::Val
    } else {
        Chunk::Int
    }
}

/// The cells of a new block, whose values are in the registers from this number on.
fn put_cells(
    scope: &Scope,
    code: &mut Backwards,
    header: u64,
    block: Reg,
    row: u32,
    operands: &[Expr],
) -> Result<(), AllocError>
    requires typed { AreAnnotated (scoped_names scope.now) operands.now }
    requires room { row + length operands.now < most_numbers }
    ensures { OnOk result (code.new ≡ cell_stores (chunk_for (nat_le (header % 256) 250)) block 0
        (regs_of scope.now.names row (expressions_of operands.now)) code.old) }
{
    let regs = regs_of(scope, row, operands)?;
    code.cell_stores(chunk_of_cells(header), block, &regs)
}

/// A new block: its header is written before the operands that have waited, and its cells after them.
/// The only error is want of memory.
#[tactic(auto, using(crate::proofs::Rooms::row_wide, crate::proofs::Rooms::row_count))]
pub fn alloc<F: Fn(&mut Scope, &mut Backwards, Place, &Expr) -> Result<(), AllocError>>(
    below: &Below<'_, F>,
    scope: &mut Scope,
    code: &mut Backwards,
    node: Node,
    header: u64,
    operands: &[Expr],
) -> Result<(), AllocError>
    requires callable { MayCall (F.pre below.now.select.now) below.now.first }
    requires selects { SelectsExpression (F.post below.now.select.now) below.now.first }
    requires tries { most_tries scope.old.labels ≤ node.place.base }
    requires begins { below.now.first ≡ node.place.base + 1 }
    requires room { HasExpressionRoom node.place.base (Alloc 0 0 header (expressions_of operands.now)) }
    requires typed { AreAnnotated (scoped_names scope.old) operands.now }
    requires ty { (at header_at : ℕ) → node.ty ≡ type_of (scoped_names scope.old) (Alloc at header_at
        header (expressions_of operands.now)) }
    ensures code { OnOk result ((at header_at : ℕ) → code.new ≡ node_code scope.old node.place
        (Alloc at header_at header (expressions_of operands.now)) code.old) }
    ensures scope { OnOk result (scope.new ≡ scope.old) }
{
    let row = node.place.base + 3;
    let cells = operands.len() as u32;
    let base = row + cells;
    let block = fresh(row - 2, Ty::Val);
    let word = fresh(row - 1, Ty::Int);
    code.move_to(block, node.dest())?;
    put_cells(scope, code, header, block, row, operands)?;
    put_row(below, scope, code, Timing::Deferred, row, base, operands)?;
    code.store(Chunk::Int, HEADER_OFFSET, block, word)?;
    code.constant(header, word)?;
    code.allocate(header, cells, block)?;
    put_row(below, scope, code, Timing::Eager, row, base, operands)
}
