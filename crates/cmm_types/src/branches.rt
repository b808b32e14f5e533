//! The types and the faults of choices between parts.
ghost use Rattle.std.specs.Prelude.{◌≡◌, IfOk};
ghost use Rattle.cmm_types.specs.Groups.{group_of};
ghost use Rattle.cmm_tree.specs.Symbols.{definition_of};
ghost use Rattle.cmm_types.specs.Checked.{IsFormChecked, AreCasesChecked};
ghost use Rattle.cmm_types.specs.declared.group.FormGroup.TheVariants as groups;

use crate::checker::Checker;
use crate::role::Role;
use crate::seen::{Seen, either, join};
use crate::symbols::Symbols;
use bs_words::Ty;
use cmm_tree::{Case, Form};
use std::alloc::{AllocError, Global};

impl Checker {
    /// Gives all below a choice between parts their types, and notes its faults and theirs.
    #[cycle(node)]
    pub fn visit_branch(
        &mut self,
        alloc: Global,
        symbols: &Symbols,
        at: u32,
        form: &mut Form,
    ) -> Result<Seen, AllocError>
        requires { group_of form.old ≡ groups.Branch }
        ensures { IfOk result (λ seen.
            IsFormChecked (definition_of symbols.now) at self.old self.new form.old form.new seen) }
    {
        match form {
            Form::If(condition, on_true, on_false) => {
                let tested = self.operand(alloc, symbols, Role::Taken, condition)?;
                let first = self.visit(alloc, symbols, on_true)?;
                let second = self.visit(alloc, symbols, on_false)?;
                Ok(Seen {
                    plain: join(first.plain, second.plain),
                    float: either(either(tested.float, first.float), second.float),
                })
            }
            Form::Switch {
                size_at: _,
                size: _,
                selector,
                cases,
            } => {
                let chosen = self.operand(alloc, symbols, Role::Taken, selector)?;
                let seen = self.case_row(alloc, symbols, cases)?;
                Ok(Seen {
                    plain: seen.plain,
                    float: either(chosen.float, seen.float),
                })
            }
            Form::Integer(_) | Form::Pointer(_) | Form::Symbol(_) | Form::Name(_) => unreachable!(),
            Form::Nothing | Form::Float { .. } | Form::Let(_, _) => unreachable!(),
            Form::Assign { .. } | Form::Operator(_, _, _) | Form::Load(_, _) => unreachable!(),
            Form::Store(_, _, _) | Form::Alloc { .. } | Form::App { .. } => unreachable!(),
            Form::Extcall { .. } | Form::Checkbound(_, _) | Form::Raise(_) => unreachable!(),
            Form::Seq(_) | Form::Catch(_, _) | Form::Exit { .. } => unreachable!(),
            Form::Try { .. } => unreachable!(),
        }
    }

    /// The same of the cases in a vector.
    #[cycle(node)]
    fn case_row(
        &mut self,
        alloc: Global,
        symbols: &Symbols,
        cases: &mut Vec<Case>,
    ) -> Result<Seen, AllocError>
        ensures { IfOk result (λ seen. AreCasesChecked (definition_of symbols.now) self.old self.new
            cases.old.items cases.new.items seen) }
    {
        let seen = self.visit_cases(alloc, symbols, cases.as_mut_slice())?;
        Ok(seen)
    }

    /// The same of the bodies of cases. The type is what they come to.
    #[cycle(node)]
    fn visit_cases(
        &mut self,
        alloc: Global,
        symbols: &Symbols,
        cases: &mut [Case],
    ) -> Result<Seen, AllocError>
        ensures { IfOk result (λ seen. AreCasesChecked (definition_of symbols.now) self.old self.new
            cases.old cases.new seen) }
    {
        let mut plain = Ty::Never;
        let mut float = false;
        for index in 0..cases.len() {
            let seen = self.visit(alloc, symbols, &mut cases[index].body)?;
            plain = join(plain, seen.plain);
            float = either(float, seen.float);
        }
        Ok(Seen { plain, float })
    }
}
