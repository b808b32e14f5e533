//! The names in scope, and the slot of each.
ghost use Rattle.std.specs.Prelude.{◌≡◌, ◌∷◌, ◌&&◌, ◌+◌, ◌≤◌, suc, length, List, Some, IfOk};
ghost use Rattle.cmm_tree.specs.View.{expr_view, params_view};
ghost use Rattle.cmm_types.specs.Light.{is_immutable, is_light_address};
ghost use Rattle.walk_tables.specs.Walks.{Slotted, names, with_slots};
ghost use Rattle.walk_tables.specs.Cells.{cells, item_at};
ghost use Rattle.walk_tables.specs.Sound.{AreItemsSound, IsScope, Opens};
ghost use Rattle.walk_tables.specs.Found.{found_in};

use crate::items::{Cells, Item};
use bs_words::{Name, Ty};
use cmm_tree::{Expr, Param};
use cmm_types::NamesInScope;
use std::alloc::AllocError;

/// What a name in scope stands for.
#[derive(Clone, Copy)]
pub struct Found {
    /// The type of its value.
    pub ty: Ty,
    /// Whether an assignment may change it.
    pub mutable: bool,
    /// The number of the slot that walks bind it to, from 0 on.
    pub slot: usize,
}

/// A scope, and the cells that it is among.
#[derive(Clone, Copy)]
struct ScopeAt<'c, 'a> {
    cells: &'c Cells<'a>,
    scope: usize,
}

impl NamesInScope for ScopeAt<'_, '_> {
    ghost HasNames = { λ at in_scope. (s : List Slotted) × AreItemsSound (cells at.cells.now)
        × IsScope (cells at.cells.now) at.scope s × (names s ≡ in_scope) };

    fn is_immutable(&self, name: &Name) -> bool {
        self.cells.is_immutable(self.scope, name)
    }
}

impl<'a> Cells<'a> {
    /// The scope with one more name. The only error is want of memory.
    pub fn bind(
        &mut self,
        outer: usize,
        name: &'a Name,
        ty: Ty,
        mutable: bool,
        slot: usize,
    ) -> Result<usize, AllocError>
        ensures opens { IfOk result (λ cell. (s : List Slotted) → AreItemsSound (cells self.old) →
            IsScope (cells self.old) outer s →
            Opens (cells self.old) (cells self.new) cell
            (record {
              scoped = record { name = name.now; type = ty; mutable = mutable };
              slot = slot;
            } ∷ s)) }
        ensures more { IfOk result (λ _. length (cells self.new) ≡ suc (length (cells self.old))) }
    {
        let cell = self.push(Item::Named {
            name,
            ty,
            mutable,
            slot,
            outer,
        })?;
        Ok(cell)
    }

    /// The scope with these parameters, in slots from this one on.
    /// The only error is want of memory.
    pub fn with_slots(
        &mut self,
        scope: usize,
        slot: usize,
        params: &'a [Param],
    ) -> Result<usize, AllocError>
        requires { slot + length params.now ≤ usize.MAX }
        ensures opens { IfOk result (λ cell. (s : List Slotted) → AreItemsSound (cells self.old) →
            IsScope (cells self.old) scope s →
            Opens (cells self.old) (cells self.new) cell (with_slots slot
            (params_view params.now) s)) }
        ensures more { IfOk result (λ _.
            length (cells self.old) + length params.now ≤ length (cells self.new)) }
    {
        match params {
            [] => Ok(scope),
            [first, others @ ..] => {
                let ty = first.comp.ty();
                let next = slot + 1;
                let inner = self.bind(scope, &first.name, ty, false, slot)?;
                let cell = self.with_slots(inner, next, others)?;
                Ok(cell)
            }
        }
    }

    /// The innermost binding of the name.
    #[cycle(find)]
    pub fn find(&self, scope: usize, name: &Name) -> Option<Found>
        ensures { (s : List Slotted) → AreItemsSound (cells self.now) →
            IsScope (cells self.now) scope s → result ≡ found_in s name.now }
    {
        match self.get(scope) {
            None => None,
            Some(item) => self.find_in(scope, item, name),
        }
    }

    /// The innermost binding of the name, in the scope that this cell is.
    #[cycle(find)]
    fn find_in(&self, scope: usize, item: Item<'a>, name: &Name) -> Option<Found>
        ensures { (s : List Slotted) → AreItemsSound (cells self.now) →
            IsScope (cells self.now) scope s →
            item_at (cells self.now) scope ≡ Some item.entry → result ≡ found_in s name.now }
    {
        match item {
            Item::Named {
                name: own,
                ty,
                mutable,
                slot,
                outer,
            } => {
                if own.same(name) {
                    return Some(Found { ty, mutable, slot });
                }
                if outer < scope {
                    return self.find(outer, name);
                }
                None
            }
            Item::Empty
            | Item::Does { .. }
            | Item::Evaluates { .. }
            | Item::Enters { .. }
            | Item::Either { .. }
            | Item::OneOf { .. }
            | Item::MayRaise { .. }
            | Item::Raises { .. }
            | Item::Exits { .. }
            | Item::Catches { .. }
            | Item::Handler { .. }
            | Item::Handles { .. } => None,
        }
    }

    /// Whether it is a name that is not mutable.
    fn is_immutable(&self, scope: usize, name: &Name) -> bool
        ensures { (s : List Slotted) → AreItemsSound (cells self.now) →
            IsScope (cells self.now) scope s → result ≡ is_immutable (names s) name.now }
    {
        match self.find(scope, name) {
            None => false,
            Some(found) => !found.mutable,
        }
    }

    /// Whether it is a light expression whose outermost operator is `+a`.
    pub fn is_light_address(&self, scope: usize, expr: &Expr) -> bool
        ensures { (s : List Slotted) → AreItemsSound (cells self.now) →
            IsScope (cells self.now) scope s →
            result ≡ is_light_address (names s) (expr_view expr.now) }
    {
        cmm_types::is_light_address(&ScopeAt { cells: self, scope }, expr)
    }
}
