//! The types and the faults of operations.
ghost use Rattle.std.specs.Prelude.{◌≡◌, IfOk};
ghost use Rattle.cmm_types.specs.Groups.{group_of};
ghost use Rattle.cmm_tree.specs.Symbols.{definition_of};
ghost use Rattle.cmm_types.specs.Checked.{IsFormChecked};
ghost use Rattle.cmm_types.specs.declared.group.FormGroup.TheVariants as groups;

use crate::checker::Checker;
use crate::role::Role;
use crate::seen::{Seen, either, is_float_ret, is_header, ty_of_chunk, ty_of_operator, ty_of_ret};
use crate::symbols::Symbols;
use bs_fault::Fault;
use bs_words::Ty;
use cmm_tree::Form;
use std::alloc::{AllocError, Global};

impl Checker {
    /// Gives all below an operation on one part their types, and notes its faults and theirs.
    #[cycle(node)]
    pub fn visit_unary(
        &mut self,
        alloc: Global,
        symbols: &Symbols,
        at: u32,
        form: &mut Form,
    ) -> Result<Seen, AllocError>
        requires { group_of form.old ≡ groups.Unary }
        ensures { IfOk result (λ seen.
            IsFormChecked (definition_of symbols.now) at self.old self.new form.old form.new seen) }
    {
        match form {
            Form::Assign {
                name_at,
                name,
                value,
            } => {
                self.note_target(name, *name_at);
                let seen = self.operand(alloc, symbols, Role::Taken, value)?;
                Ok(Seen {
                    plain: Ty::NoValue,
                    float: seen.float,
                })
            }
            Form::Load(chunk, address) => {
                let plain = ty_of_chunk(*chunk);
                let seen = self.operand(alloc, symbols, Role::Taken, address)?;
                Ok(Seen {
                    plain,
                    float: seen.float,
                })
            }
            Form::Raise(value) => {
                let seen = self.operand(alloc, symbols, Role::Taken, value)?;
                Ok(Seen {
                    plain: Ty::Never,
                    float: seen.float,
                })
            }
            Form::Integer(_) | Form::Pointer(_) | Form::Symbol(_) | Form::Name(_) => unreachable!(),
            Form::Nothing | Form::Float { .. } | Form::Let(_, _) => unreachable!(),
            Form::Operator(_, _, _) | Form::Store(_, _, _) | Form::Alloc { .. } => unreachable!(),
            Form::App { .. } | Form::Extcall { .. } | Form::Checkbound(_, _) => unreachable!(),
            Form::Seq(_) | Form::If(_, _, _) | Form::Switch { .. } => unreachable!(),
            Form::Catch(_, _) | Form::Exit { .. } | Form::Try { .. } => unreachable!(),
        }
    }

    /// The same of an operation on two parts.
    #[cycle(node)]
    pub fn visit_binary(
        &mut self,
        alloc: Global,
        symbols: &Symbols,
        at: u32,
        form: &mut Form,
    ) -> Result<Seen, AllocError>
        requires { group_of form.old ≡ groups.Binary }
        ensures { IfOk result (λ seen.
            IsFormChecked (definition_of symbols.now) at self.old self.new form.old form.new seen) }
    {
        match form {
            Form::Operator(op, left, right) => {
                let plain = ty_of_operator(*op);
                let first = self.operand(alloc, symbols, Role::Taken, left)?;
                let second = self.operand(alloc, symbols, Role::Taken, right)?;
                Ok(Seen {
                    plain,
                    float: either(first.float, second.float),
                })
            }
            Form::Store(_, address, value) => {
                let first = self.operand(alloc, symbols, Role::Taken, address)?;
                let second = self.operand(alloc, symbols, Role::Taken, value)?;
                Ok(Seen {
                    plain: Ty::NoValue,
                    float: either(first.float, second.float),
                })
            }
            Form::Checkbound(bound, index) => {
                let first = self.operand(alloc, symbols, Role::Taken, bound)?;
                let second = self.operand(alloc, symbols, Role::Taken, index)?;
                Ok(Seen {
                    plain: Ty::NoValue,
                    float: either(first.float, second.float),
                })
            }
            Form::Integer(_) | Form::Pointer(_) | Form::Symbol(_) | Form::Name(_) => unreachable!(),
            Form::Nothing | Form::Float { .. } | Form::Let(_, _) => unreachable!(),
            Form::Assign { .. } | Form::Load(_, _) | Form::Alloc { .. } => unreachable!(),
            Form::App { .. } | Form::Extcall { .. } | Form::Raise(_) => unreachable!(),
            Form::Seq(_) | Form::If(_, _, _) | Form::Switch { .. } => unreachable!(),
            Form::Catch(_, _) | Form::Exit { .. } | Form::Try { .. } => unreachable!(),
        }
    }

    /// The same of a form with a row of parts.
    #[cycle(node)]
    pub fn visit_row(
        &mut self,
        alloc: Global,
        symbols: &Symbols,
        at: u32,
        form: &mut Form,
    ) -> Result<Seen, AllocError>
        requires { group_of form.old ≡ groups.Row }
        ensures { IfOk result (λ seen.
            IsFormChecked (definition_of symbols.now) at self.old self.new form.old form.new seen) }
    {
        match form {
            Form::Float { word_at, operands } => {
                self.note(Fault::Float { at: *word_at });
                self.row(alloc, symbols, Role::Visited, operands)?;
                Ok(Seen {
                    plain: Ty::Never,
                    float: true,
                })
            }
            Form::Alloc {
                header_at,
                header,
                operands,
            } => {
                let fits = is_header(*header, operands.len());
                self.note_if(!fits, Fault::AllocHeader { at: *header_at });
                let seen = self.row(alloc, symbols, Role::Taken, operands)?;
                Ok(Seen {
                    plain: Ty::Val,
                    float: seen.float,
                })
            }
            Form::Seq(elements) => {
                let seen = self.row(alloc, symbols, Role::Visited, elements)?;
                Ok(Seen {
                    plain: seen.plain,
                    float: seen.float,
                })
            }
            Form::Exit {
                label_at,
                label,
                arguments,
            } => {
                self.note_exit(label, at, *label_at, arguments.len());
                let passed = self.row(alloc, symbols, Role::Taken, arguments)?;
                Ok(Seen {
                    plain: Ty::Never,
                    float: passed.float,
                })
            }
            Form::Integer(_) | Form::Pointer(_) | Form::Symbol(_) | Form::Name(_) => unreachable!(),
            Form::Nothing | Form::Let(_, _) | Form::Assign { .. } => unreachable!(),
            Form::Operator(_, _, _) | Form::Load(_, _) | Form::Store(_, _, _) => unreachable!(),
            Form::App { .. } | Form::Extcall { .. } | Form::Checkbound(_, _) => unreachable!(),
            Form::Raise(_) | Form::If(_, _, _) | Form::Switch { .. } => unreachable!(),
            Form::Catch(_, _) | Form::Try { .. } => unreachable!(),
        }
    }

    /// The same of a call.
    #[cycle(node)]
    pub fn visit_call(
        &mut self,
        alloc: Global,
        symbols: &Symbols,
        at: u32,
        form: &mut Form,
    ) -> Result<Seen, AllocError>
        requires { group_of form.old ≡ groups.Call }
        ensures { IfOk result (λ seen.
            IsFormChecked (definition_of symbols.now) at self.old self.new form.old form.new seen) }
    {
        match form {
            Form::App {
                callee,
                arguments,
                result: given,
                result_at,
            } => {
                self.note_call(symbols, callee, at, arguments.len());
                self.note_result(*given, *result_at);
                let called = self.operand(alloc, symbols, Role::Taken, callee)?;
                let passed = self.row(alloc, symbols, Role::Taken, arguments)?;
                Ok(Seen {
                    plain: ty_of_ret(*given),
                    float: either(either(called.float, passed.float), is_float_ret(*given)),
                })
            }
            Form::Extcall {
                frame: _,
                name: _,
                arguments,
                result: given,
                result_at,
            } => {
                self.note_result(*given, *result_at);
                let passed = self.row(alloc, symbols, Role::Outer, arguments)?;
                Ok(Seen {
                    plain: ty_of_ret(*given),
                    float: either(passed.float, is_float_ret(*given)),
                })
            }
            Form::Integer(_) | Form::Pointer(_) | Form::Symbol(_) | Form::Name(_) => unreachable!(),
            Form::Nothing | Form::Float { .. } | Form::Let(_, _) => unreachable!(),
            Form::Assign { .. } | Form::Operator(_, _, _) | Form::Load(_, _) => unreachable!(),
            Form::Store(_, _, _) | Form::Alloc { .. } | Form::Checkbound(_, _) => unreachable!(),
            Form::Raise(_) | Form::Seq(_) | Form::If(_, _, _) => unreachable!(),
            Form::Switch { .. } | Form::Catch(_, _) | Form::Exit { .. } => unreachable!(),
            Form::Try { .. } => unreachable!(),
        }
    }
}
