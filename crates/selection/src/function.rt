//! The function of a file by its number, and its Mach function.
ghost use Rattle.std.specs.Prelude.{◌≡◌, ◌+◌, ◌<◌, ◌≤◌, [], length, map, All, Some, slice_get, ⊤, IfOk, OnOk, MatchOption, option_map, option_copied};
ghost use Rattle.cmm_tree.specs.Tree.{functions, functions_among};
ghost use Rattle.cmm_tree.specs.View.{function_view, item_view, file_view, params_view};
ghost use Rattle.cmm_types.specs.Typing.{AreItemsAnnotated, IsFunctionAnnotated};
ghost use Rattle.selection_rules.specs.Select.{first_after_colours, seats, params_from, moves_all, selected};
ghost use Rattle.selection.specs.Whole.{numbers_in, body_code};
ghost use Rattle.selection_scope.specs.Room.{IsSelectable, most_numbers};

use crate::forms::expr_at;
use cmm_tree::{Function, Item, Param};
use cmm_types::result_of;
use cmm_walks::Checked;
use mach_ir::{Mach, Reg, Seq};
use rv_isa::COLOURS;
use selection_code::backwards::Backwards;
use selection_scope::place::{Place, fresh, is_no_value};
use selection_scope::scope::{Scope, params_from};
use selection_scope::seats::{colour_regs, seats};
use selection_scope::width::behind;
use std::alloc::{AllocError, Global};

/// The function with this number.
fn function_at(items: &[Item], number: u32) -> Option<&Function>
    ensures tree { option_map function_view (option_copied result) ≡ slice_get
        (functions_among (map item_view items.now)) number }
    ensures typed { AreItemsAnnotated items.now → MatchOption result ⊤ (λ f.
        IsFunctionAnnotated f.now) }
{
    let mut left = number;
    let mut rest = items;
    while let [item, others @ ..] = rest {
        match item {
            Item::Function(function) => {
                if left == 0 {
                    return Some(function);
                }
                left -= 1;
            }
            Item::Data(_) => {}
        }
        rest = others;
    }
    None
}

/// The first number after the registers of the colours.
const FIRST: u32 = COLOURS.len() as u32;

/// The numbers of a function after those of the colours and of the seats of its parameters.
#[derive(Clone, Copy)]
struct Numbers {
    /// The first of the registers that its parameters are moved to.
    moved: u32,
    /// The register of its value.
    value: u32,
    /// The seat that it is given back in.
    given: u32,
    /// The first of its body.
    base: u32,
    /// The first after those of its body.
    labels: u32,
}

/// The numbers of a function.
fn numbers_of_function(function: &Function) -> Numbers
    requires { IsSelectable (function_view function.now) }
    ensures { result ≡ numbers_in (function_view function.now) }
{
    let count = function.params.as_slice().len() as u32;
    let moved = FIRST + count;
    let value = moved + count;
    let base = value + 2;
    let labels = behind(base, &function.body);
    Numbers {
        moved,
        value,
        given: value + 1,
        base,
        labels,
    }
}

/// Puts the body of a function before its end.
fn put_body(
    alloc: Global,
    function: &Function,
    numbers: Numbers,
    code: &mut Backwards,
) -> Result<(), AllocError>
    requires typed { IsFunctionAnnotated function.now }
    requires room { IsSelectable (function_view function.now) }
    requires numbers { numbers ≡ numbers_in (function_view function.now) }
    requires empty { code.old ≡ [] }
    ensures { OnOk result (code.new ≡ body_code (function_view function.now)) }
{
    let ty = function.body.ty;
    let value = fresh(numbers.value, ty);
    code.returns(value, numbers.given, result_of(ty))?;
    let place = Place {
        valued: !is_no_value(ty),
        tail: true,
        dest: value,
        base: numbers.base,
    };
    let mut scope = Scope::new(alloc);
    scope.bind_params(function.params.as_slice(), numbers.moved)?;
    expr_at(&mut scope, code, place, &function.body)
}

/// Moves the parameters of a function from their seats to their registers, before what there is, and answers the seats.
fn put_params(
    alloc: Global,
    params: &[Param],
    moved: u32,
    code: &mut Backwards,
) -> Result<Seq<Reg>, AllocError>
    requires after { first_after_colours ≤ moved }
    requires room { moved + length params.now < most_numbers }
    ensures params { IfOk result (λ given. given ≡ seats 0 first_after_colours (params_from moved
        (params_view params.now))) }
    ensures code { IfOk result (λ _. code.new ≡ moves_all (seats 0 first_after_colours (params_from moved
        (params_view params.now))) (params_from moved (params_view params.now)) code.old) }
{
    let own = params_from(alloc, moved, params)?;
    let given = seats(alloc, FIRST, &own)?;
    code.moves_all(&given, &own)?;
    given.to_seq(alloc)
}

/// The Mach function of a function whose tree holds its types.
///
/// # Errors
///
/// Where memory is used up.
pub fn select_function(alloc: Global, function: &Function) -> Result<Mach, AllocError>
    requires typed { IsFunctionAnnotated function.now }
    requires room { IsSelectable (function_view function.now) }
    ensures { IfOk result (λ mach. mach ≡ selected (function_view function.now)) }
{
    let numbers = numbers_of_function(function);
    let mut code = Backwards::new(alloc);
    put_body(alloc, function, numbers, &mut code)?;
    let params = put_params(alloc, function.params.as_slice(), numbers.moved, &mut code)?;
    let name = code.copy_of(&function.name)?;
    Ok(Mach {
        name,
        params,
        result: result_of(function.body.ty),
        labels: numbers.labels,
        colours: colour_regs(alloc)?,
        code: code.into_seq(),
    })
}

/// The Mach function of the function with this number.
///
/// # Errors
///
/// Where memory is used up.
pub fn select(alloc: Global, checked: &Checked, function: u32) -> Result<Mach, AllocError>
    requires number { function < length (functions (file_view checked.now)) }
    requires room { All IsSelectable (functions (file_view checked.now)) }
    ensures { IfOk result (λ mach. slice_get (map selected (functions (file_view checked.now)))
        function ≡ Some mach) }
{
    let items = checked.typed().file().items.as_slice();
    match function_at(items, function) {
        Some(function) => select_function(alloc, function),
        None => unreachable!(),
    }
}
