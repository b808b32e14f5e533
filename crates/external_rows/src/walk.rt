//! The walk of a file that finds its external calls.
ghost use Rattle.std.specs.Prelude.{◌≡◌, [], ◌∷◌, IfOk, OnOk};
ghost use Rattle.bs_words.specs.Contents.{contents};
ghost use Rattle.cmm_tree.specs.View.{file_view};
ghost use Rattle.cmm_types.specs.Typing.{AreItemsAnnotated};
ghost use Rattle.assemble_rules.specs.Held.{
  calls_held,
  comps_among,
  calls_among,
  calls_among_bindings,
  calls_among_cases,
  calls_among_handlers,
  calls_among_items,
};
ghost use Rattle.rv_layout_rules.specs.Externals.{firsts_behind, externals};

use crate::rows::ExternalRows;
use bs_words::Comp;
use cmm_tree::{Binding, Case, Expr, File, Form, Handler, Item};
use cmm_types::comp_of_argument;
use std::alloc::{AllocError, Global};

fn comps_of_arguments(alloc: Global, arguments: &[Expr]) -> Result<Vec<Comp>, AllocError>
    ensures { IfOk result (λ comps. comps.items ≡ comps_among arguments.now) }
{
    let mut comps = Vec::new(alloc);
    let mut rest = arguments;
    while let [argument, others @ ..] = rest {
        comps.push(comp_of_argument(argument.ty))?;
        rest = others;
    }
    Ok(comps)
}

impl ExternalRows {
    /// Notes the calls in an expression, in the order of the text.
    #[cycle(walk)]
    fn walk(&mut self, alloc: Global, expr: &Expr) -> Result<(), AllocError>
        ensures { OnOk result (self.new ≡ firsts_behind self.old (calls_held expr.now.form)) }
    {
        match &expr.form {
            Form::Integer(_) | Form::Pointer(_) | Form::Symbol(_) | Form::Name(_) | Form::Nothing =>
                Ok(()),
            Form::Float { operands, .. } => self.walk_row(alloc, operands.as_slice()),
            Form::Let(bindings, body) => {
                self.walk_bindings(alloc, bindings.as_slice())?;
                self.walk(alloc, body)
            }
            Form::Assign { value, .. } => self.walk(alloc, value),
            Form::Operator(_, left, right) => {
                self.walk(alloc, left)?;
                self.walk(alloc, right)
            }
            Form::Load(_, address) => self.walk(alloc, address),
            Form::Store(_, address, value) => {
                self.walk(alloc, address)?;
                self.walk(alloc, value)
            }
            Form::Alloc { operands, .. } => self.walk_row(alloc, operands.as_slice()),
            Form::App {
                callee,
                arguments,
                ..
            } => {
                self.walk(alloc, callee)?;
                self.walk_row(alloc, arguments.as_slice())
            }
            Form::Extcall {
                name,
                arguments,
                result: answer,
                ..
            } => {
                let comps = comps_of_arguments(alloc, arguments.as_slice())?;
                self.note(alloc, name, comps, *answer)?;
                self.walk_row(alloc, arguments.as_slice())
            }
            Form::Checkbound(bound, index) => {
                self.walk(alloc, bound)?;
                self.walk(alloc, index)
            }
            Form::Raise(value) => self.walk(alloc, value),
            Form::Seq(elements) => self.walk_row(alloc, elements.as_slice()),
            Form::If(condition, on_true, on_false) => {
                self.walk(alloc, condition)?;
                self.walk(alloc, on_true)?;
                self.walk(alloc, on_false)
            }
            Form::Switch {
                selector,
                cases,
                ..
            } => {
                self.walk(alloc, selector)?;
                self.walk_cases(alloc, cases.as_slice())
            }
            Form::Catch(body, handlers) => {
                self.walk(alloc, body)?;
                self.walk_handlers(alloc, handlers.as_slice())
            }
            Form::Exit { arguments, .. } => self.walk_row(alloc, arguments.as_slice()),
            Form::Try { body, handler, .. } => {
                self.walk(alloc, body)?;
                self.walk(alloc, handler)
            }
        }
    }

    #[cycle(walk)]
    fn walk_row(&mut self, alloc: Global, exprs: &[Expr]) -> Result<(), AllocError>
        ensures { OnOk result (self.new ≡ firsts_behind self.old (calls_among exprs.now)) }
    {
        for expr in exprs {
            self.walk(alloc, expr)?;
        }
        Ok(())
    }

    #[cycle(walk)]
    fn walk_bindings(&mut self, alloc: Global, bindings: &[Binding]) -> Result<(), AllocError>
        ensures { OnOk result (self.new
            ≡ firsts_behind self.old (calls_among_bindings bindings.now)) }
    {
        for binding in bindings {
            self.walk(alloc, &binding.value)?;
        }
        Ok(())
    }

    #[cycle(walk)]
    fn walk_cases(&mut self, alloc: Global, cases: &[Case]) -> Result<(), AllocError>
        ensures { OnOk result (self.new ≡ firsts_behind self.old (calls_among_cases cases.now)) }
    {
        for case in cases {
            self.walk(alloc, &case.body)?;
        }
        Ok(())
    }

    #[cycle(walk)]
    fn walk_handlers(&mut self, alloc: Global, handlers: &[Handler]) -> Result<(), AllocError>
        ensures { OnOk result (self.new
            ≡ firsts_behind self.old (calls_among_handlers handlers.now)) }
    {
        for handler in handlers {
            self.walk(alloc, &handler.body)?;
        }
        Ok(())
    }

    fn walk_item(&mut self, alloc: Global, item: &Item) -> Result<(), AllocError>
        ensures { OnOk result (self.new
            ≡ firsts_behind self.old (calls_among_items (item.now ∷ []))) }
    {
        match item {
            Item::Function(function) => self.walk(alloc, &function.body),
            Item::Data(_) => Ok(()),
        }
    }
}

/// The rows of a file's external calls, in the order of their first use in the text.
///
/// Each node of the file's functions has to hold its type. It fails only where memory runs out.
pub fn external_rows(alloc: Global, file: &File) -> Result<ExternalRows, AllocError>
    requires { AreItemsAnnotated (contents file.now.items) }
    ensures { IfOk result (λ rows. rows ≡ externals (file_view file.now)) }
{
    let mut rows = ExternalRows::new(alloc);
    for item in file.items.as_slice() {
        rows.walk_item(alloc, item)?;
    }
    Ok(rows)
}
