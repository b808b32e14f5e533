//! The types and the faults of a node and of all below it.
ghost use Rattle.std.specs.Prelude.{◌≡◌, IfOk};
ghost use Rattle.cmm_tree.specs.View.{expr_view};
ghost use Rattle.cmm_types.specs.Groups.{group_of};
ghost use Rattle.cmm_tree.specs.Symbols.{definition_of};
ghost use Rattle.cmm_types.specs.Gathered.{faults_in, used_as};
ghost use Rattle.cmm_types.specs.Checked.{IsFormChecked, IsExprChecked, AreExprsChecked};
ghost use Rattle.cmm_types.specs.declared.group.FormGroup.TheVariants as groups;

use crate::checker::Checker;
use crate::group::{FormGroup, group_of_form};
use crate::role::Role;
use crate::seen::{Seen, either};
use crate::symbols::Symbols;
use bs_fault::Fault;
use bs_words::Ty;
use cmm_tree::{Expr, Form};
use std::alloc::{AllocError, Global};

impl Checker {
    /// Gives the node and all below it their types, and notes their faults.
    /// The only error is want of memory.
    #[cycle(node)]
    pub fn visit(
        &mut self,
        alloc: Global,
        symbols: &Symbols,
        expr: &mut Expr,
    ) -> Result<Seen, AllocError>
        ensures { IfOk result (λ seen. IsExprChecked (faults_in (definition_of symbols.now) self.old.names
            self.old.labels (expr_view expr.old)) self.old self.new expr.old expr.new seen) }
    {
        let seen = self.visit_form(alloc, symbols, expr.at, &mut expr.form)?;
        expr.ty = seen.ty();
        Ok(seen)
    }

    /// Gives all below the form their types, and notes its faults and theirs.
    #[cycle(node)]
    fn visit_form(
        &mut self,
        alloc: Global,
        symbols: &Symbols,
        at: u32,
        form: &mut Form,
    ) -> Result<Seen, AllocError>
        ensures { IfOk result (λ seen.
            IsFormChecked (definition_of symbols.now) at self.old self.new form.old form.new seen) }
    {
        match group_of_form(form) {
            FormGroup::Leaf => Ok(self.visit_leaf(symbols, at, form)),
            FormGroup::Unary => self.visit_unary(alloc, symbols, at, form),
            FormGroup::Binary => self.visit_binary(alloc, symbols, at, form),
            FormGroup::Row => self.visit_row(alloc, symbols, at, form),
            FormGroup::Call => self.visit_call(alloc, symbols, at, form),
            FormGroup::Branch => self.visit_branch(alloc, symbols, at, form),
            FormGroup::Scope => self.visit_scope(alloc, symbols, at, form),
        }
    }

    /// The same of a form without parts.
    fn visit_leaf(&mut self, symbols: &Symbols, at: u32, form: &Form) -> Seen
        requires { group_of form.now ≡ groups.Leaf }
        ensures { IsFormChecked (definition_of symbols.now) at self.old self.new form.now form.now result }
    {
        match form {
            Form::Integer(_) => Seen::plain(Ty::Int),
            Form::Pointer(_) => Seen::plain(Ty::Val),
            Form::Symbol(name) => {
                self.note_if(!symbols.has(name), Fault::UnknownSymbol { at });
                Seen::plain(Ty::Val)
            }
            Form::Name(name) => Seen::plain(self.note_name(name, at)),
            Form::Nothing => Seen::plain(Ty::NoValue),
            Form::Float { .. } | Form::Let(_, _) | Form::Assign { .. } => unreachable!(),
            Form::Operator(_, _, _) | Form::Load(_, _) | Form::Store(_, _, _) => unreachable!(),
            Form::Alloc { .. } | Form::App { .. } | Form::Extcall { .. } => unreachable!(),
            Form::Checkbound(_, _) | Form::Raise(_) | Form::Seq(_) => unreachable!(),
            Form::If(_, _, _) | Form::Switch { .. } | Form::Catch(_, _) => unreachable!(),
            Form::Exit { .. } | Form::Try { .. } => unreachable!(),
        }
    }

    /// The same of a part with this role in its node.
    #[cycle(node)]
    #[tactic(auto, using(cmm_tree::proofs::Rows::place_view))]
    pub fn operand(
        &mut self,
        alloc: Global,
        symbols: &Symbols,
        role: Role,
        expr: &mut Expr,
    ) -> Result<Seen, AllocError>
        ensures { IfOk result (λ seen. IsExprChecked (used_as role self.old.names (expr_view expr.old)
            (faults_in (definition_of symbols.now) self.old.names self.old.labels (expr_view expr.old)))
            self.old self.new expr.old expr.new seen) }
    {
        let seen = self.visit(alloc, symbols, expr)?;
        self.note_role(role, expr.at, seen.ty());
        Ok(seen)
    }

    /// The same of the parts in a vector.
    #[cycle(node)]
    pub fn row(
        &mut self,
        alloc: Global,
        symbols: &Symbols,
        role: Role,
        exprs: &mut Vec<Expr>,
    ) -> Result<Seen, AllocError>
        ensures { IfOk result (λ seen. AreExprsChecked role (definition_of symbols.now) self.old self.new
            exprs.old.items exprs.new.items seen) }
    {
        let seen = self.operands(alloc, symbols, role, exprs.as_mut_slice())?;
        Ok(seen)
    }

    /// The same of parts with this role, first to last. The type is that of the last, if no float is in
    /// it.
    #[cycle(node)]
    fn operands(
        &mut self,
        alloc: Global,
        symbols: &Symbols,
        role: Role,
        exprs: &mut [Expr],
    ) -> Result<Seen, AllocError>
        ensures { IfOk result (λ seen. AreExprsChecked role (definition_of symbols.now) self.old self.new
            exprs.old exprs.new seen) }
    {
        let mut plain = Ty::NoValue;
        let mut float = false;
        for index in 0..exprs.len() {
            let seen = self.operand(alloc, symbols, role, &mut exprs[index])?;
            plain = seen.plain;
            float = either(float, seen.float);
        }
        Ok(Seen { plain, float })
    }
}
