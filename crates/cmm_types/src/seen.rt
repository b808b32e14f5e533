//! What is found out of a node.
ghost use Rattle.std.specs.Prelude.{◌≡◌, ◌||◌, false, option_map};
ghost use Rattle.bs_words.specs.Memory.{type_of_chunk};
ghost use Rattle.cmm_tree.specs.View.{declared_view, params_view};
ghost use Rattle.cmm_types.specs.Faults.{is_header};
ghost use Rattle.cmm_types.specs.Types.{is_float};
ghost use Rattle.bs_words.specs.Operators.{type_of_operator};
ghost use Rattle.cmm_types.specs.Types.{join, unless_float, type_of_result, is_float_result, type_bound, is_mutable, is_declared_float, has_float_parameter};

use crate::names::Meaning;
use bs_words::{Chunk, Comp, IntOp, Ret, Ty};
use cmm_tree::{Declared, Param};

/// What is found out of a node: its type if no float was in it, and whether a float form is in it.
#[derive(Clone, Copy)]
pub struct Seen {
    /// Its type if no float was in it.
    pub plain: Ty,
    /// Whether a float form is in it.
    pub float: bool,
}

impl Seen {
    /// A node without a float, of this type.
    pub fn plain(plain: Ty) -> Self
        ensures { result ≡ record { plain = plain; float = false } }
    {
        Seen {
            plain,
            float: false,
        }
    }

    /// The type: what holds a float does not come back.
    pub fn ty(self) -> Ty
        ensures { result ≡ unless_float self.float self.plain }
    {
        if self.float { Ty::Never } else { self.plain }
    }
}

/// Whether one of them holds.
pub fn either(first: bool, second: bool) -> bool
    ensures { result ≡ (first || second) }
{
    first || second
}

/// What two branches come to.
pub fn join(first: Ty, second: Ty) -> Ty
    ensures { result ≡ join first second }
{
    match (first, second) {
        (Ty::Never, other) => other,
        (other, Ty::Never) => other,
        (Ty::NoValue, _) => Ty::NoValue,
        (_, Ty::NoValue) => Ty::NoValue,
        (Ty::Addr, _) => Ty::Addr,
        (_, Ty::Addr) => Ty::Addr,
        (Ty::Val, _) => Ty::Val,
        (_, Ty::Val) => Ty::Val,
        (Ty::Int, Ty::Int) => Ty::Int,
    }
}

/// The type of what a call is written to give.
pub fn ty_of_ret(given: Ret) -> Ty
    ensures { result ≡ type_of_result given }
{
    match given {
        Ret::Unit => Ty::NoValue,
        Ret::Comp(comp) => comp.ty(),
    }
}

/// Whether what a call is written to give is a float.
pub fn is_float_ret(given: Ret) -> bool
    ensures { result ≡ is_float_result given }
{
    matches!(given, Ret::Comp(Comp::Float))
}

/// The type of what a load of this chunk gives.
pub fn ty_of_chunk(chunk: Chunk) -> Ty
    ensures { result ≡ type_of_chunk chunk }
{
    match chunk {
        Chunk::Val => Ty::Val,
        Chunk::U8 | Chunk::I8 | Chunk::U16 | Chunk::I16 => Ty::Int,
        Chunk::U32 | Chunk::I32 | Chunk::Int => Ty::Int,
    }
}

/// The type of what an operator gives.
pub fn ty_of_operator(op: IntOp) -> Ty
    ensures { result ≡ type_of_operator op }
{
    match op {
        IntOp::AddV => Ty::Val,
        IntOp::AddA => Ty::Addr,
        IntOp::Add | IntOp::Sub | IntOp::Mul | IntOp::Mulh | IntOp::Div | IntOp::Mod => Ty::Int,
        IntOp::And | IntOp::Or | IntOp::Xor | IntOp::Shl | IntOp::Shr | IntOp::Sar => Ty::Int,
        IntOp::Cmp(_) | IntOp::CmpU(_) => Ty::Int,
    }
}

/// Whether the component is a float.
pub fn is_float(comp: Comp) -> bool
    ensures { result ≡ is_float comp }
{
    match comp {
        Comp::Float => true,
        Comp::Int | Comp::Val | Comp::Addr => false,
    }
}

/// Whether a binding declares a float.
pub fn is_declared_float(declared: Option<Declared>) -> bool
    ensures { result ≡ is_declared_float (option_map declared_view declared) }
{
    match declared {
        Some(declared) => is_float(declared.comp),
        None => false,
    }
}

/// What a name stands for that is bound to an expression of this type.
pub fn meaning_bound(declared: Option<Declared>, ty: Ty) -> Meaning
    ensures ty { result.ty ≡ type_bound (option_map declared_view declared) ty }
    ensures mutable { result.mutable ≡ is_mutable (option_map declared_view declared) }
{
    match declared {
        Some(declared) => Meaning {
            ty: declared.comp.ty(),
            mutable: true,
        },
        None => Meaning { ty, mutable: false },
    }
}

/// Whether one of the parameters is a float.
pub fn has_float(params: &[Param]) -> bool
    ensures { result ≡ has_float_parameter (params_view params.now) }
{
    for param in params {
        if is_float(param.comp) {
            return true;
        }
    }
    false
}

/// Whether a block of so many cells may have this header: the bits above the low ten are that number, there
/// are 1 to 256 cells, and the tag, the low eight bits, is none of 245 to 250.
pub fn is_header(header: u64, cells: usize) -> bool
    ensures { result ≡ is_header header cells }
{
    let tag = header % 256;
    header / 1024 == cells as u64 && (1 <= cells && (cells <= 256 && !(245 <= tag && tag <= 250)))
}
