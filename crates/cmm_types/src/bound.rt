//! What follows from the type of an expression: what a name is bound to, what a call takes, what a function returns.
ghost use Rattle.std.specs.Prelude.{◌≡◌, option_map};
ghost use Rattle.cmm_tree.specs.View.{declared_view};
ghost use Rattle.cmm_types.specs.Types.{comp_of_argument, is_address, is_mutable, result_of, type_bound};

use bs_words::{Comp, Ret, Ty};
use cmm_tree::Declared;

/// Whether values of the type are addresses into blocks, which no allocation may outlive.
pub fn is_address(ty: Ty) -> bool
    ensures { result ≡ is_address ty }
{
    match ty {
        Ty::Addr => true,
        Ty::Never | Ty::NoValue | Ty::Int | Ty::Val => false,
    }
}

/// The type of a name that is bound to a value of this type.
pub fn type_bound(declared: Option<Declared>, ty: Ty) -> Ty
    ensures { result ≡ type_bound (option_map declared_view declared) ty }
{
    match declared {
        None => ty,
        Some(declared) => declared.comp.ty(),
    }
}

/// Whether an assignment may change a name that is declared so.
pub fn is_mutable(declared: Option<Declared>) -> bool
    ensures { result ≡ is_mutable (option_map declared_view declared) }
{
    match declared {
        None => false,
        Some(_) => true,
    }
}

/// The component in which an external call takes an argument of this type.
pub fn comp_of_argument(ty: Ty) -> Comp
    ensures { result ≡ comp_of_argument ty }
{
    match ty {
        Ty::Val => Comp::Val,
        Ty::Int | Ty::Addr | Ty::Never | Ty::NoValue => Comp::Int,
    }
}

/// What a function returns whose body has this type.
pub fn result_of(ty: Ty) -> Ret
    ensures { result ≡ result_of ty }
{
    match ty {
        Ty::Int => Ret::Comp(Comp::Int),
        Ty::Val => Ret::Comp(Comp::Val),
        Ty::Addr => Ret::Comp(Comp::Addr),
        Ty::NoValue | Ty::Never => Ret::Unit,
    }
}
