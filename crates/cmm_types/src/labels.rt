//! The labels that are visible.
ghost use Rattle.std.specs.Prelude.{◌≡◌, ◌-◌, ◌∷◌, ◌++◌, length, [], drop, map, reverse, OnOk};
ghost use Rattle.cmm_types.specs.VisibleLabels.{visible_view};
ghost use Rattle.std.specs.Option.{option_map};
ghost use Rattle.cmm_tree.specs.View.{label_view};
ghost use Rattle.cmm_types.specs.Standing.{Visible, handler_of, labels_of, lasting_labels_of};
ghost use Rattle.cmm_tree.specs.Rows.{handlers_of};
ghost use Rattle.cmm_types.specs.Scopes.{parameters_of_label};

use cmm_tree::{Handler, Label};
use std::alloc::{AllocError, Global};
use std::marker::Model;

#[derive(Drop)]
struct VisibleLabel {
    label: Label,
    parameters: usize,
}

/// The labels that are visible, with the numbers of parameters of their handlers. Contracts see them as a
/// list, the innermost first.
#[derive(Drop)]
pub struct LabelScope {
    visible: Vec<VisibleLabel>,
}

impl Model for LabelScope {
    ghost use Rattle.std.specs.Prelude.{List, map, reverse};
    ghost use Rattle.cmm_types.specs.Standing.{Visible};
    ghost use Rattle.cmm_types.specs.VisibleLabels.{visible_view};

    ghost Value = { List Visible };

    ghost view = { λ labels. map visible_view (reverse labels.visible.items) };
}

/// The number of parameters at the last of these that has the label.
fn innermost(visible: &[VisibleLabel], label: &Label) -> Option<usize>
    ensures { result ≡ option_map parameters_of_label (handler_of (map visible_view
        (reverse visible.now)) (label_view label.now)) }
{
    let mut left = visible.len();
    while left > 0 {
        left -= 1;
        let found = &visible[left];
        if found.label.same(label) {
            return Some(found.parameters);
        }
    }
    None
}

impl LabelScope {
    /// No labels. It takes no memory.
    pub fn new(alloc: Global) -> Self
        ensures { result ≡ [] }
    {
        LabelScope {
            visible: Vec::new(alloc),
        }
    }

    /// The number of labels that are visible, hidden ones counted.
    pub fn len(&self) -> usize
        ensures { result ≡ length self.now }
    {
        self.visible.len()
    }

    fn add(&mut self, alloc: Global, handler: &Handler) -> Result<(), AllocError>
        ensures ok { OnOk result (self.new ≡ record {
          label = label_view handler.now.label;
          parameters = length handler.now.params.items;
        } ∷ self.old) }
    {
        let label = handler.label.copy(alloc)?;
        let parameters = handler.params.len();
        self.visible.push(VisibleLabel { label, parameters })?;
        Ok(())
    }

    /// Makes the labels of all of these handlers visible. The only error is want of memory.
    pub fn add_all(&mut self, alloc: Global, handlers: &[Handler]) -> Result<(), AllocError>
        ensures ok { OnOk result (self.new ≡ labels_of (handlers_of handlers.now) ++ self.old) }
    {
        let mut left = handlers.len();
        while left > 0 {
            left -= 1;
            self.add(alloc, &handlers[left])?;
        }
        Ok(())
    }

    /// Makes those labels of the handlers visible that are visible in handlers too.
    /// The only error is want of memory.
    pub fn add_lasting(&mut self, alloc: Global, handlers: &[Handler]) -> Result<(), AllocError>
        ensures ok { OnOk result (self.new ≡ lasting_labels_of (handlers_of handlers.now)
            ++ self.old) }
    {
        let mut left = handlers.len();
        while left > 0 {
            left -= 1;
            if !matches!(handlers[left].label, Label::Bare) {
                self.add(alloc, &handlers[left])?;
            }
        }
        Ok(())
    }

    /// Leaves catches until so many labels are left, if there are more.
    pub fn leave(&mut self, left: usize)
        ensures { self.new ≡ drop (length self.old - left) self.old }
    {
        self.visible.truncate(left);
    }

    /// The number of parameters of the innermost handler of the label.
    pub fn find(&self, label: &Label) -> Option<usize>
        ensures { result
            ≡ option_map parameters_of_label (handler_of self.now (label_view label.now)) }
    {
        innermost(self.visible.as_slice(), label)
    }
}
