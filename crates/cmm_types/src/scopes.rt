//! The types and the faults of forms that make names or labels visible.
ghost use Rattle.std.specs.Prelude.{◌≡◌, ◌||◌, option_map, OnOk, IfOk};
ghost use Rattle.cmm_tree.specs.View.{expr_view, params_view, declared_view};
ghost use Rattle.cmm_types.specs.Annotated.{IsAnnotated};
ghost use Rattle.cmm_types.specs.Groups.{group_of};
ghost use Rattle.cmm_types.specs.Lists.{with_binding};
ghost use Rattle.cmm_tree.specs.Symbols.{definition_of};
ghost use Rattle.cmm_types.specs.Types.{with_parameters, type_without_float, holds_float, is_declared_float, has_float_parameter};
ghost use Rattle.cmm_types.specs.Gathered.{faults_in, used_as, declared_faults, params_faults};
ghost use Rattle.bs_fault.specs.Reported.{noted_all};
ghost use Rattle.cmm_types.specs.Checked.{IsFormChecked, AreHandlersChecked, AreBindingsChecked};
ghost use Rattle.cmm_types.specs.declared.role.Role.TheVariants as roles;
ghost use Rattle.cmm_types.specs.declared.group.FormGroup.TheVariants as groups;

use crate::checker::Checker;
use crate::names::Meaning;
use crate::role::Role;
use crate::seen::{Seen, either, has_float, is_declared_float, join, meaning_bound};
use crate::symbols::Symbols;
use bs_words::Ty;
use cmm_tree::{Binding, Form, Handler};
use std::alloc::{AllocError, Global};

/// What the name of a try stands for in its handler.
const RAISED: Meaning = Meaning {
    ty: Ty::Val,
    mutable: false,
};

impl Checker {
    /// Gives all below a form that makes names or labels visible their types, and notes its faults and theirs.
    #[cycle(node)]
    pub fn visit_scope(
        &mut self,
        alloc: Global,
        symbols: &Symbols,
        at: u32,
        form: &mut Form,
    ) -> Result<Seen, AllocError>
        requires { group_of form.old ≡ groups.Scope }
        ensures { IfOk result (λ seen.
            IsFormChecked (definition_of symbols.now) at self.old self.new form.old form.new seen) }
    {
        match form {
            Form::Let(bindings, body) => {
                let outer = self.names.len();
                let bound = self.binding_row(alloc, symbols, bindings)?;
                let seen = self.visit(alloc, symbols, body)?;
                self.names.leave(outer);
                Ok(Seen {
                    plain: seen.plain,
                    float: either(bound, seen.float),
                })
            }
            Form::Catch(body, handlers) => {
                self.note_repeated(handlers.as_slice());
                let outer = self.labels.len();
                self.labels.add_all(alloc, handlers.as_slice())?;
                let first = self.visit(alloc, symbols, body)?;
                self.labels.leave(outer);
                self.labels.add_lasting(alloc, handlers.as_slice())?;
                let second = self.handler_row(alloc, symbols, handlers)?;
                self.labels.leave(outer);
                Ok(Seen {
                    plain: join(first.plain, second.plain),
                    float: either(first.float, second.float),
                })
            }
            Form::Try {
                body,
                name_at: _,
                name,
                handler,
            } => {
                let tried = self.visit(alloc, symbols, body)?;
                let outer = self.names.len();
                self.names.bind(alloc, name, RAISED)?;
                let handled = self.visit(alloc, symbols, handler)?;
                self.names.leave(outer);
                Ok(Seen {
                    plain: join(tried.plain, handled.plain),
                    float: either(tried.float, handled.float),
                })
            }
            Form::Integer(_) | Form::Pointer(_) | Form::Symbol(_) | Form::Name(_) => unreachable!(),
            Form::Nothing | Form::Float { .. } | Form::Assign { .. } => unreachable!(),
            Form::Operator(_, _, _) | Form::Load(_, _) | Form::Store(_, _, _) => unreachable!(),
            Form::Alloc { .. } | Form::App { .. } | Form::Extcall { .. } => unreachable!(),
            Form::Checkbound(_, _) | Form::Raise(_) | Form::Seq(_) => unreachable!(),
            Form::If(_, _, _) | Form::Switch { .. } | Form::Exit { .. } => unreachable!(),
        }
    }

    /// The same of the bindings in a vector.
    #[cycle(node)]
    fn binding_row(
        &mut self,
        alloc: Global,
        symbols: &Symbols,
        bindings: &mut Vec<Binding>,
    ) -> Result<bool, AllocError>
        ensures { IfOk result (λ float. AreBindingsChecked (definition_of symbols.now) self.old self.new
            bindings.old.items bindings.new.items float) }
    {
        let held = self.bind_all(alloc, symbols, bindings.as_mut_slice())?;
        Ok(held)
    }

    /// The same of bindings, one after the other, and binds their names. It answers whether a float is in
    /// them.
    #[cycle(node)]
    fn bind_all(
        &mut self,
        alloc: Global,
        symbols: &Symbols,
        bindings: &mut [Binding],
    ) -> Result<bool, AllocError>
        ensures { IfOk result (λ float. AreBindingsChecked (definition_of symbols.now) self.old self.new
            bindings.old bindings.new float) }
    {
        let mut float = false;
        for index in 0..bindings.len() {
            let held = self.bind(alloc, symbols, &mut bindings[index])?;
            float = either(float, held);
        }
        Ok(float)
    }

    /// The same of what a binding binds, and binds its name. It answers whether a float is in the binding.
    #[cycle(node)]
    fn bind(
        &mut self,
        alloc: Global,
        symbols: &Symbols,
        binding: &mut Binding,
    ) -> Result<bool, AllocError>
        ensures view { OnOk result (binding.new
            ≡ record binding.old { value = binding.new.value }) }
        ensures value_view { OnOk result (expr_view binding.new.value
            ≡ expr_view binding.old.value) }
        ensures typed { OnOk result (IsAnnotated self.old.names binding.new.value) }
        ensures names { OnOk result (self.new.names ≡ with_binding self.old.names binding.old) }
        ensures labels { OnOk result (self.new.labels ≡ self.old.labels) }
        ensures found { OnOk result (self.new.found ≡ noted_all (used_as roles.Taken self.old.names
            (expr_view binding.old.value) (faults_in
            (definition_of symbols.now) self.old.names self.old.labels
            (expr_view binding.old.value))) (noted_all (declared_faults
            (option_map declared_view binding.old.declared)) self.old.found)) }
        ensures float { IfOk result (λ float. float ≡ (is_declared_float
            (option_map declared_view binding.old.declared) || holds_float
            (expr_view binding.old.value))) }
    {
        self.note_declared(binding.declared);
        let seen = self.operand(alloc, symbols, Role::Taken, &mut binding.value)?;
        let meaning = meaning_bound(binding.declared, seen.ty());
        self.names.bind(alloc, &binding.name, meaning)?;
        Ok(either(is_declared_float(binding.declared), seen.float))
    }

    /// The same of the handlers in a vector.
    #[cycle(node)]
    fn handler_row(
        &mut self,
        alloc: Global,
        symbols: &Symbols,
        handlers: &mut Vec<Handler>,
    ) -> Result<Seen, AllocError>
        ensures { IfOk result (λ seen. AreHandlersChecked (definition_of symbols.now) self.old self.new
            handlers.old.items handlers.new.items seen) }
    {
        let seen = self.visit_handlers(alloc, symbols, handlers.as_mut_slice())?;
        Ok(seen)
    }

    /// The same of handlers. The type is what they come to.
    #[cycle(node)]
    fn visit_handlers(
        &mut self,
        alloc: Global,
        symbols: &Symbols,
        handlers: &mut [Handler],
    ) -> Result<Seen, AllocError>
        ensures { IfOk result (λ seen. AreHandlersChecked (definition_of symbols.now) self.old self.new
            handlers.old handlers.new seen) }
    {
        let mut plain = Ty::Never;
        let mut float = false;
        for index in 0..handlers.len() {
            let seen = self.visit_handler(alloc, symbols, &mut handlers[index])?;
            plain = join(plain, seen.plain);
            float = either(float, seen.float);
        }
        Ok(Seen { plain, float })
    }

    /// The same of a handler, in whose body its parameters are in scope.
    #[cycle(node)]
    fn visit_handler(
        &mut self,
        alloc: Global,
        symbols: &Symbols,
        handler: &mut Handler,
    ) -> Result<Seen, AllocError>
        ensures view { OnOk result (handler.new ≡ record handler.old { body = handler.new.body }) }
        ensures body_view { OnOk result (expr_view handler.new.body ≡ expr_view handler.old.body) }
        ensures typed { OnOk result (IsAnnotated (with_parameters
            (params_view handler.old.params.items) self.old.names) handler.new.body) }
        ensures names { OnOk result (self.new.names ≡ self.old.names) }
        ensures labels { OnOk result (self.new.labels ≡ self.old.labels) }
        ensures found { OnOk result (self.new.found ≡ noted_all (faults_in
            (definition_of symbols.now) (with_parameters
            (params_view handler.old.params.items) self.old.names) self.old.labels
            (expr_view handler.old.body)) (noted_all (params_faults
            (params_view handler.old.params.items)) self.old.found)) }
        ensures plain { IfOk result (λ seen. seen.plain ≡ type_without_float (with_parameters
            (params_view handler.old.params.items) self.old.names) (expr_view handler.old.body)) }
        ensures float { IfOk result (λ seen. seen.float ≡ (has_float_parameter
            (params_view handler.old.params.items) || holds_float (expr_view handler.old.body))) }
    {
        let params = handler.params.as_slice();
        self.note_params(params);
        let float = has_float(params);
        let outer = self.names.len();
        self.bind_params(alloc, params)?;
        let seen = self.visit(alloc, symbols, &mut handler.body)?;
        self.names.leave(outer);
        Ok(Seen {
            plain: seen.plain,
            float: either(float, seen.float),
        })
    }
}
