//! What is round a node, and the fault that is reported so far.
ghost use Rattle.std.specs.Prelude.{◌≡◌, is_none, option_map, OnOk};
ghost use Rattle.bs_fault.specs.declared.fault.Fault.TheVariants as faults;
ghost use Rattle.cmm_tree.specs.View.{expr_view, label_view, params_view, declared_view};
ghost use Rattle.cmm_tree.specs.Rows.{handlers_of};
ghost use Rattle.cmm_types.specs.Standing.{handler_of};
ghost use Rattle.cmm_tree.specs.Symbols.{definition_of};
ghost use Rattle.cmm_types.specs.Types.{binding_of, is_float, type_named, with_parameters};
ghost use Rattle.cmm_types.specs.Gathered.{role_faults, target_faults, arity_faults, call_faults, exit_faults};
ghost use Rattle.cmm_types.specs.Gathered.{comp_faults, result_faults, params_faults, declared_faults, labelled_faults};
ghost use Rattle.cmm_types.specs.Gathered.{repeated_faults};
ghost use Rattle.bs_fault.specs.Reported.{noted, noted_all, one_if};

use crate::labels::LabelScope;
use crate::names::{Meaning, Names};
use crate::role::Role;
use crate::seen::is_float;
use crate::symbols::Symbols;
use bs_fault::{Fault, noted};
use bs_words::{Comp, Name, Ret, Ty};
use cmm_tree::{Declared, Expr, Form, Handler, Label, Param};
use std::alloc::{AllocError, Global};

/// The names and labels that are visible where a node is, and the fault that is reported so far.
#[derive(Drop)]
pub struct Checker {
    /// The names that are visible.
    pub names: Names,
    /// The labels that are visible.
    pub labels: LabelScope,
    /// The fault that is reported so far, if there is one.
    pub found: Option<Fault>,
}

impl Checker {
    /// Notes the fault.
    pub fn note(&mut self, told: Fault)
        ensures names { self.new.names ≡ self.old.names }
        ensures labels { self.new.labels ≡ self.old.labels }
        ensures found { self.new.found ≡ noted told self.old.found }
    {
        self.found = noted(told, self.found);
    }

    /// Notes the fault where the test holds.
    pub fn note_if(&mut self, test: bool, told: Fault)
        ensures names { self.new.names ≡ self.old.names }
        ensures labels { self.new.labels ≡ self.old.labels }
        ensures found { self.new.found ≡ noted_all (one_if test told) self.old.found }
    {
        if test {
            self.note(told);
        }
    }

    /// Notes what is wrong with a part of this type at this place.
    pub fn note_role(&mut self, role: Role, at: u32, ty: Ty)
        ensures names { self.new.names ≡ self.old.names }
        ensures labels { self.new.labels ≡ self.old.labels }
        ensures found { self.new.found ≡ noted_all (role_faults role at ty) self.old.found }
    {
        match (role, ty) {
            (Role::Taken, Ty::NoValue) => self.note(Fault::NoValue { at }),
            (Role::Outer, Ty::NoValue) => self.note(Fault::NoValue { at }),
            (Role::Outer, Ty::Addr) => self.note(Fault::AddrArgument { at }),
            (Role::Visited, _) => {}
            (Role::Taken, Ty::Never | Ty::Int | Ty::Val | Ty::Addr) => {}
            (Role::Outer, Ty::Never | Ty::Int | Ty::Val) => {}
        }
    }

    /// The type of a name. It notes where nothing binds it.
    pub fn note_name(&mut self, name: &Name, at: u32) -> Ty
        ensures names { self.new.names ≡ self.old.names }
        ensures labels { self.new.labels ≡ self.old.labels }
        ensures found { self.new.found ≡ noted_all (one_if (is_none
            (binding_of self.old.names name.now)) (faults.Unbound at)) self.old.found }
        ensures ty { result ≡ type_named self.old.names name.now }
    {
        match self.names.find(name) {
            None => {
                self.note(Fault::Unbound { at });
                Ty::Never
            }
            Some(meaning) => meaning.ty,
        }
    }

    /// Notes what is wrong with the name of an assignment.
    pub fn note_target(&mut self, name: &Name, name_at: u32)
        ensures names { self.new.names ≡ self.old.names }
        ensures labels { self.new.labels ≡ self.old.labels }
        ensures found { self.new.found ≡ noted_all (target_faults
            (binding_of self.old.names name.now) name_at) self.old.found }
    {
        match self.names.find(name) {
            None => self.note(Fault::Unbound { at: name_at }),
            Some(meaning) => self.note_if(!meaning.mutable, Fault::NotMutable { at: name_at }),
        }
    }

    /// Notes another number of arguments than parameters, if there are parameters.
    fn note_arity(&mut self, parameters: Option<usize>, at: u32, arguments: usize)
        ensures names { self.new.names ≡ self.old.names }
        ensures labels { self.new.labels ≡ self.old.labels }
        ensures found { self.new.found
            ≡ noted_all (arity_faults parameters at arguments) self.old.found }
    {
        if let Some(parameters) = parameters {
            self.note_if(parameters != arguments, Fault::Arity { at });
        }
    }

    /// Notes that a call of a function by its symbol has another number of arguments than parameters.
    pub fn note_call(&mut self, symbols: &Symbols, callee: &Expr, at: u32, arguments: usize)
        ensures names { self.new.names ≡ self.old.names }
        ensures labels { self.new.labels ≡ self.old.labels }
        ensures found { self.new.found ≡ noted_all (call_faults (definition_of symbols.now)
            (expr_view callee.now) at arguments) self.old.found }
    {
        match &callee.form {
            Form::Symbol(name) => {
                let parameters = symbols.parameters(name);
                self.note_arity(parameters, at, arguments);
            }
            Form::Integer(_)
            | Form::Pointer(_)
            | Form::Name(_)
            | Form::Nothing
            | Form::Float { .. }
            | Form::Let(_, _)
            | Form::Assign { .. }
            | Form::Operator(_, _, _)
            | Form::Load(_, _)
            | Form::Store(_, _, _)
            | Form::Alloc { .. }
            | Form::App { .. }
            | Form::Extcall { .. }
            | Form::Checkbound(_, _)
            | Form::Raise(_)
            | Form::Seq(_)
            | Form::If(_, _, _)
            | Form::Switch { .. }
            | Form::Catch(_, _)
            | Form::Exit { .. }
            | Form::Try { .. } => {}
        }
    }

    /// Notes what is wrong with an exit to this label.
    pub fn note_exit(&mut self, label: &Label, at: u32, label_at: u32, arguments: usize)
        ensures names { self.new.names ≡ self.old.names }
        ensures labels { self.new.labels ≡ self.old.labels }
        ensures found { self.new.found ≡ noted_all (exit_faults (handler_of self.old.labels
            (label_view label.now)) at label_at arguments) self.old.found }
    {
        match self.labels.find(label) {
            None => self.note(Fault::UnknownLabel { at: label_at }),
            Some(parameters) => self.note_if(parameters != arguments, Fault::Arity { at }),
        }
    }

    /// Notes a component that is a float.
    pub fn note_comp(&mut self, comp: Comp, at: u32)
        ensures names { self.new.names ≡ self.old.names }
        ensures labels { self.new.labels ≡ self.old.labels }
        ensures found { self.new.found ≡ noted_all (comp_faults comp at) self.old.found }
    {
        self.note_if(is_float(comp), Fault::Float { at });
    }

    /// Notes that a binding declares a float.
    pub fn note_declared(&mut self, declared: Option<Declared>)
        ensures names { self.new.names ≡ self.old.names }
        ensures labels { self.new.labels ≡ self.old.labels }
        ensures found { self.new.found ≡ noted_all (declared_faults
            (option_map declared_view declared)) self.old.found }
    {
        if let Some(declared) = declared {
            self.note_comp(declared.comp, declared.at);
        }
    }

    /// Notes a result that is a float.
    pub fn note_result(&mut self, result_of: Ret, at: u32)
        ensures names { self.new.names ≡ self.old.names }
        ensures labels { self.new.labels ≡ self.old.labels }
        ensures found { self.new.found ≡ noted_all (result_faults result_of at) self.old.found }
    {
        if let Ret::Comp(comp) = result_of {
            self.note_comp(comp, at);
        }
    }

    /// Notes parameters that are floats.
    pub fn note_params(&mut self, params: &[Param])
        ensures names { self.new.names ≡ self.old.names }
        ensures labels { self.new.labels ≡ self.old.labels }
        ensures found { self.new.found
            ≡ noted_all (params_faults (params_view params.now)) self.old.found }
    {
        for param in params {
            self.note_comp(param.comp, param.comp_at);
        }
    }

    /// Notes the handlers of this label.
    fn note_labelled(&mut self, label: &Label, handlers: &[Handler])
        ensures names { self.new.names ≡ self.old.names }
        ensures labels { self.new.labels ≡ self.old.labels }
        ensures found { self.new.found ≡ noted_all (labelled_faults (label_view label.now)
            (handlers_of handlers.now)) self.old.found }
    {
        for handler in handlers {
            self.note_if(
                label.same(&handler.label),
                Fault::DuplicateSymbol { at: handler.at },
            );
        }
    }

    /// Notes the handlers whose label an earlier one has.
    pub fn note_repeated(&mut self, handlers: &[Handler])
        ensures names { self.new.names ≡ self.old.names }
        ensures labels { self.new.labels ≡ self.old.labels }
        ensures found { self.new.found
            ≡ noted_all (repeated_faults (handlers_of handlers.now)) self.old.found }
    {
        for (index, handler) in handlers.iter().enumerate() {
            let (_, later) = handlers.split_at(index + 1);
            self.note_labelled(&handler.label, later);
        }
    }

    /// Binds the parameters, first to last. The only error is want of memory.
    pub fn bind_params(&mut self, alloc: Global, params: &[Param]) -> Result<(), AllocError>
        ensures names { OnOk result (self.new.names
            ≡ with_parameters (params_view params.now) self.old.names) }
        ensures labels { self.new.labels ≡ self.old.labels }
        ensures found { self.new.found ≡ self.old.found }
    {
        for param in params {
            let meaning = Meaning {
                ty: param.comp.ty(),
                mutable: false,
            };
            self.names.bind(alloc, &param.name, meaning)?;
        }
        Ok(())
    }
}
