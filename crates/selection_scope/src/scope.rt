//! The names and labels in scope.
ghost use Rattle.std.specs.Prelude.{◌≡◌, ◌+◌, ◌<◌, [], ◌∷◌, ◌++◌, List, Some, false};
ghost use Rattle.std.specs.Prelude.{not, length, map, reverse, option_map, option_copied, IfOk, OnOk, MatchOption};
ghost use Rattle.cmm_tree.specs.Rows.{handlers_of};
ghost use Rattle.cmm_tree.specs.View.{label_view, params_view};
ghost use Rattle.cmm_types.specs.Light.{is_immutable};
ghost use Rattle.selection_rules.specs.Select.{NamedRegister, Label as InCode, scopes, reg_of, visible_label, params_from, with_params, labels_from, in_handlers, labels_within_try};
ghost use Rattle.selection_rules.specs.Select.{width_labels};
ghost use Rattle.selection_scope.specs.Room.{most_numbers, most_tries};
ghost use Rattle.selection_scope.specs.Scoping.{named_view, target_view, scoped_names, labels_outside_try};

use crate::place::fresh;
use crate::row::Regs;
use bs_words::{Name, Ty};
use cmm_tree::{Handler, Label, Param};
use mach_ir::Reg;
use std::alloc::{AllocError, Global};
use std::marker::Model;

/// A name in scope, and its register.
#[derive(Drop)]
pub struct Bound {
    /// The name.
    pub name: Name,
    /// Its type.
    pub ty: Ty,
    /// Whether it may be assigned.
    pub mutable: bool,
    /// The register that holds its value.
    pub reg: Reg,
}

/// A handler in scope: the registers of its parameters, its label in the code, and how many tries are between it and
/// what is selected.
#[derive(Drop)]
pub struct Target {
    /// Its label in the text.
    pub label: Label,
    /// The registers of its parameters, in order.
    pub params: Regs,
    /// Its label in the code.
    pub number: mach_ir::Label,
    /// How many tries are between it and what is selected.
    pub tries: u32,
}

/// The names and labels in scope. Contracts see them as lists, the innermost first.
#[derive(Drop)]
pub struct Scope {
    alloc: Global,
    /// The innermost is the last.
    names: Vec<Bound>,
    /// The innermost is the last.
    labels: Vec<Target>,
}

impl Model for Scope {
    ghost use Rattle.std.specs.Prelude.{map, reverse};
    ghost use Rattle.selection_scope.specs.Scoping.{LexicalScope, named_view, target_view};

    ghost Value = { LexicalScope };

    ghost view = { λ scope. record {
      names = map named_view (reverse scope.names.items);
      labels = map target_view (reverse scope.labels.items);
    } };
}

/// The last of the bindings that has the name.
fn innermost<'b>(names: &'b [Bound], name: &Name) -> Option<&'b Bound>
    ensures reg { option_map (λ b. b.reg) (option_copied result) ≡ reg_of (map named_view
        (reverse names.now)) name.now }
    ensures mutable { MatchOption result (is_immutable (scopes (map named_view
        (reverse names.now))) name.now ≡ false) (λ b. is_immutable (scopes (map named_view
        (reverse names.now))) name.now ≡ not b.now.mutable) }
{
    let mut rest = names;
    while let Some((last, others)) = rest.split_last() {
        if last.name.same(name) {
            return Some(last);
        }
        rest = others;
    }
    None
}

/// The last of the handlers that has the label.
fn handler_for<'b>(labels: &'b [Target], label: &Label) -> Option<&'b Target>
    ensures { option_map target_view (option_copied result) ≡ visible_label (map target_view
        (reverse labels.now)) (label_view label.now) }
{
    let mut rest = labels;
    while let Some((last, others)) = rest.split_last() {
        if label.same(&last.label) {
            return Some(last);
        }
        rest = others;
    }
    None
}

/// Registers for parameters, with the numbers from this one on. The only error is want of memory.
pub fn params_from(alloc: Global, number: u32, params: &[Param]) -> Result<Regs, AllocError>
    requires { number + length params.now < most_numbers }
    ensures { IfOk result (λ regs. regs ≡ params_from number (params_view params.now)) }
{
    let mut regs = Regs::new(alloc);
    let mut next = number;
    let mut rest = params;
    while let [param, others @ ..] = rest {
        regs.push(fresh(next, param.comp.ty()))?;
        next += 1;
        rest = others;
    }
    Ok(regs)
}

/// The handlers of a catch, the first of which has this number.
fn targets(alloc: Global, handlers: &[Handler], number: u32) -> Result<Vec<Target>, AllocError>
    requires { number + width_labels (handlers_of handlers.now) < most_numbers }
    ensures { IfOk result (λ targets. map target_view targets.items ≡ labels_from number
        (handlers_of handlers.now)) }
{
    let mut targets = Vec::new(alloc);
    let mut next = number;
    let mut rest = handlers;
    while let [handler, others @ ..] = rest {
        let first = next + 1;
        let params = params_from(alloc, first, handler.params.as_slice())?;
        let label = handler.label.copy(alloc)?;
        targets.push(Target {
            label,
            params,
            number: mach_ir::Label(next),
            tries: 0,
        })?;
        next = first + handler.params.len() as u32;
        rest = others;
    }
    Ok(targets)
}

/// Puts these handlers on the stack, the first innermost.
fn put_back(labels: &mut Vec<Target>, targets: Vec<Target>) -> Result<(), AllocError>
    ensures { OnOk result (map target_view (reverse labels.new.items) ≡
        map target_view targets.items ++ map target_view (reverse labels.old.items)) }
{
    let mut left = targets;
    while let Some(target) = left.pop() {
        labels.push(target)?;
    }
    Ok(())
}

/// The same of those that are not bare.
fn put_lasting(labels: &mut Vec<Target>, targets: Vec<Target>) -> Result<(), AllocError>
    ensures { OnOk result (map target_view (reverse labels.new.items) ≡
        in_handlers (map target_view targets.items)
        ++ map target_view (reverse labels.old.items)) }
{
    let mut left = targets;
    while let Some(target) = left.pop() {
        if !target.label.is_bare() {
            labels.push(target)?;
        }
    }
    Ok(())
}

/// Takes the handlers off the stack, the innermost first, with one try more before each.
fn one_deeper(alloc: Global, labels: &mut Vec<Target>) -> Result<Vec<Target>, AllocError>
    requires { most_tries (map target_view (reverse labels.old.items)) < most_numbers }
    ensures taken { IfOk result (λ inside. map target_view inside.items ≡
        labels_within_try (map target_view (reverse labels.old.items))) }
    ensures none { IfOk result (λ _. labels.new.items ≡ []) }
{
    let mut inside = Vec::new(alloc);
    while let Some(target) = labels.pop() {
        let tries = target.tries + 1;
        inside.push(Target { tries, ..target })?;
    }
    Ok(inside)
}

/// Takes the handlers off the stack, the innermost first, with one try less before each.
fn one_higher(alloc: Global, labels: &mut Vec<Target>) -> Result<Vec<Target>, AllocError>
    ensures taken { IfOk result (λ outside. map target_view outside.items ≡
        labels_outside_try (map target_view (reverse labels.old.items))) }
    ensures none { IfOk result (λ _. labels.new.items ≡ []) }
{
    let mut outside = Vec::new(alloc);
    while let Some(target) = labels.pop() {
        let tries = target.tries.saturating_sub(1);
        outside.push(Target { tries, ..target })?;
    }
    Ok(outside)
}

impl Scope {
    /// Nothing in scope. It takes no memory.
    pub fn new(alloc: Global) -> Self
        ensures { result ≡ record { names = []; labels = [] } }
    {
        Scope {
            alloc,
            names: Vec::new(alloc),
            labels: Vec::new(alloc),
        }
    }

    /// What is allocated by.
    pub fn alloc(&self) -> Global {
        self.alloc
    }

    /// The register of a name, if it is in scope.
    pub fn reg_of(&self, name: &Name) -> Option<Reg>
        ensures { result ≡ reg_of self.now.names name.now }
    {
        match innermost(self.names.as_slice(), name) {
            Some(bound) => Some(bound.reg),
            None => None,
        }
    }

    /// Whether it is the name of a binding that no assignment changes.
    pub fn is_immutable(&self, name: &Name) -> bool
        ensures { result ≡ is_immutable (scoped_names self.now) name.now }
    {
        match innermost(self.names.as_slice(), name) {
            Some(bound) => !bound.mutable,
            None => false,
        }
    }

    /// Binds a name, innermost. The only error is want of memory.
    pub fn bind(&mut self, name: &Name, ty: Ty, mutable: bool, reg: Reg) -> Result<(), AllocError>
        ensures { OnOk result (self.new ≡ record self.old {
          names = record {
            scoped = record { name = name.now; type = ty; mutable = mutable };
            reg = reg;
          } ∷ self.old.names;
        }) }
    {
        let name = Name::from_vec(Vec::from_slice(self.alloc, name.as_bytes())?);
        self.names.push(Bound {
            name,
            ty,
            mutable,
            reg,
        })?;
        Ok(())
    }

    /// Leaves the scope of the innermost name, and answers its register.
    pub fn unbind(&mut self) -> Option<Reg>
        ensures { (x : NamedRegister) (rest : List NamedRegister) → self.old.names ≡ x ∷ rest →
            (result ≡ Some x.reg) × (self.new ≡ record self.old { names = rest }) }
    {
        match self.names.pop() {
            Some(bound) => Some(bound.reg),
            None => None,
        }
    }

    /// Binds parameters to registers with the numbers from this one on, the last one innermost.
    /// The only error is want of memory.
    pub fn bind_params(&mut self, params: &[Param], number: u32) -> Result<(), AllocError>
        requires { number + length params.now < most_numbers }
        ensures { OnOk result (self.new ≡ record self.old {
          names = with_params (params_view params.now) (params_from number
              (params_view params.now)) self.old.names;
        }) }
    {
        let mut next = number;
        let mut rest = params;
        while let [param, others @ ..] = rest {
            let ty = param.comp.ty();
            self.bind(&param.name, ty, false, fresh(next, ty))?;
            next += 1;
            rest = others;
        }
        Ok(())
    }

    /// The number of names in scope, hidden ones counted.
    pub fn names_len(&self) -> usize
        ensures { result ≡ length self.now.names }
    {
        self.names.len()
    }

    /// Leaves scopes until so many names are left.
    pub fn leave_names(&mut self, left: usize)
        ensures { (front rest : List NamedRegister) → self.old.names ≡ front ++ rest →
            length rest ≡ left → self.new ≡ record self.old { names = rest } }
    {
        self.names.truncate(left);
    }

    /// The handler of a label, if it is in scope.
    pub fn target_of(&self, label: &Label) -> Option<&Target>
        ensures { option_map target_view (option_copied result) ≡ visible_label self.now.labels
            (label_view label.now) }
    {
        handler_for(self.labels.as_slice(), label)
    }

    /// Makes the labels of handlers visible, the first of which has this number, as the body of their catch sees them.
    /// The only error is want of memory.
    pub fn enter_body(&mut self, handlers: &[Handler], number: u32) -> Result<(), AllocError>
        requires { number + width_labels (handlers_of handlers.now) < most_numbers }
        ensures { OnOk result (self.new ≡ record self.old {
          labels = labels_from number (handlers_of handlers.now) ++ self.old.labels;
        }) }
    {
        let targets = targets(self.alloc, handlers, number)?;
        put_back(&mut self.labels, targets)
    }

    /// The same as the handlers see them: the bare label is not visible.
    /// The only error is want of memory.
    pub fn enter_handlers(&mut self, handlers: &[Handler], number: u32) -> Result<(), AllocError>
        requires { number + width_labels (handlers_of handlers.now) < most_numbers }
        ensures { OnOk result (self.new ≡ record self.old {
          labels = in_handlers (labels_from number
              (handlers_of handlers.now)) ++ self.old.labels;
        }) }
    {
        let targets = targets(self.alloc, handlers, number)?;
        put_lasting(&mut self.labels, targets)
    }

    /// The number of labels in scope, hidden ones counted.
    pub fn labels_len(&self) -> usize
        ensures { result ≡ length self.now.labels }
    {
        self.labels.len()
    }

    /// Leaves catches until so many labels are left.
    pub fn leave_labels(&mut self, left: usize)
        ensures { (front rest : List InCode) → self.old.labels ≡ front ++ rest →
            length rest ≡ left → self.new ≡ record self.old { labels = rest } }
    {
        self.labels.truncate(left);
    }

    /// Enters the body of a try: one try more is between each handler and what is selected.
    /// The only error is want of memory.
    pub fn enter_try(&mut self) -> Result<(), AllocError>
        requires { most_tries self.old.labels < most_numbers }
        ensures { OnOk result (self.new ≡ record self.old { labels = labels_within_try self.old.labels }) }
    {
        let inside = one_deeper(self.alloc, &mut self.labels)?;
        put_back(&mut self.labels, inside)
    }

    /// Leaves the body of a try. The only error is want of memory.
    pub fn leave_try(&mut self) -> Result<(), AllocError>
        ensures { OnOk result (self.new ≡ record self.old { labels = labels_outside_try self.old.labels }) }
    {
        let outside = one_higher(self.alloc, &mut self.labels)?;
        put_back(&mut self.labels, outside)
    }
}
