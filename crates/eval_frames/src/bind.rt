//! Bindings and parameters.
ghost use Rattle.std.specs.Prelude.{◌≡◌, ◌∷◌, [], IfOk, map};
ghost use Rattle.cmm_tree.specs.View.{params_view};
ghost use Rattle.cmm_tree.specs.Tree.{Parameter};
ghost use Rattle.cmm_meaning.specs.State as state;
ghost use Rattle.cmm_meaning.specs.Evaluation.{Evaluation, tested, entered, fit_parameters, scoped_parameter, with_bound};
ghost use Rattle.eval_frames.specs.Filled.{scoped_binding, or_improper};
ghost use Rattle.eval_frames.specs.Views.{here_view};

use crate::here::Here;
use bs_words::{Kind, Value};
use cmm_tree::{Binding, Param};
use cmm_types::{is_mutable, type_bound};
use cmm_values::{fits, misfit};
use std::alloc::AllocError;

/// Binds a name to a value, or says why the value does not fit it.
/// The only error is want of memory.
pub fn bind_value<'a>(
    end: u64,
    here: &mut Here<'a>,
    binding: &'a Binding,
    value: Value,
) -> Result<Option<Kind>, AllocError>
    ensures { IfOk result (λ kind. (w : state.World) → (go : state.Here → Evaluation) →
        or_improper kind w (go (here_view here.new)) ≡ tested end
        (scoped_binding binding.entry.now).type value w (go (with_bound
        (scoped_binding binding.entry.now ∷ []) (value ∷ []) (here_view here.old)))) }
{
    let ty = type_bound(binding.declared, binding.value.ty);
    if !fits(end, ty, value) {
        return Ok(Some(misfit(ty)));
    }
    here.bind(&binding.name, ty, is_mutable(binding.declared), value)?;
    Ok(None)
}

/// Whether values fit parameters, in number and type.
pub fn fit_parameters(end: u64, params: &[Param], values: &[Value]) -> bool
    ensures { result ≡ fit_parameters end (map (λ (p : Parameter).
        p.comp) (params_view params.now)) values.now }
{
    if params.len() != values.len() {
        return false;
    }
    for (param, value) in params.iter().zip(values) {
        if !fits(end, param.comp.ty(), *value) {
            return false;
        }
    }
    true
}

/// Why the first value that does not fit its parameter does not, if there is one.
/// Values of another number are no call.
pub fn first_misfit(end: u64, params: &[Param], values: &[Value]) -> Option<Kind>
    ensures { (w : state.World) → (go : Evaluation) →
        or_improper result w go ≡ entered end (params_view params.now) values.now w go }
{
    for (param, value) in params.iter().zip(values) {
        let ty = param.comp.ty();
        if !fits(end, ty, *value) {
            return Some(misfit(ty));
        }
    }
    if params.len() != values.len() {
        return Some(Kind::BadCall);
    }
    None
}

/// Binds parameters to values, one after the other. The only error is want of memory.
pub fn bind_params<'a>(
    here: &mut Here<'a>,
    params: &'a [Param],
    values: &[Value],
) -> Result<(), AllocError>
    ensures { IfOk result (λ _. here_view here.new ≡ with_bound (map scoped_parameter
        (params_view params.entry.now)) values.now (here_view here.old)) }
{
    for (param, value) in params.iter().zip(values) {
        here.bind(&param.name, param.comp.ty(), false, *value)?;
    }
    Ok(())
}
