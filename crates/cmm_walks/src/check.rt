//! Addresses at frame points, over the functions of a file.
ghost use Rattle.std.specs.Prelude.{◌∷◌, ◌++◌, ℕ, [], List, map, IsTrue, IsFalse, IfOk, IfErr};
ghost use Rattle.bs_words.specs.Contents.{contents};
ghost use Rattle.cmm_tree.specs.Tree.{FunctionTree, functions_among};
ghost use Rattle.cmm_tree.specs.View.{function_view, item_view, file_view};
ghost use Rattle.walk_tables.specs.AddrLive.{IsLive, Before};
ghost use Rattle.cmm_walks.specs.Refusal.{ToldIn, ToldAmong, IsRefusal};
ghost use Rattle.cmm_types.specs.Typing.{IsFunctionAnnotated, IsItemAnnotated, AreItemsAnnotated};

use crate::first::first_live;
use crate::limits::Limits;
use bs_fault::{Fault, FrontError};
use cmm_tree::{File, Function, Item};
use std::alloc::{AllocError, Global};
use walk_tables::make_table;

/// Whether no other order is needed: the first comes before the second, by the use, then by the frame
/// point, then by the binding.
fn in_order(one: Limits, other: Limits) -> bool
    ensures first { IsTrue result →
        Before one.bound one.point one.used other.bound other.point other.used }
    ensures second { IsFalse result →
        Before other.bound other.point other.used one.bound one.point one.used }
{
    if one.used != other.used {
        return one.used < other.used;
    }
    if one.point != other.point {
        return one.point < other.point;
    }
    one.bound <= other.bound
}

/// The one of two that comes first, if there is one.
fn first(one: Option<Limits>, other: Option<Limits>) -> Option<Limits>
    ensures { (fs gs : List FunctionTree) → ToldAmong fs one → ToldAmong gs other →
        ToldAmong (fs ++ gs) result }
{
    match one {
        None => other,
        Some(one) => match other {
            None => Some(one),
            Some(other) => {
                if in_order(one, other) {
                    Some(one)
                } else {
                    Some(other)
                }
            }
        },
    }
}

fn told_in_function(alloc: Global, function: &Function) -> Result<Option<Limits>, AllocError>
    requires { IsFunctionAnnotated function.now }
    ensures { IfOk result (λ told. ToldIn (function_view function.now) told) }
{
    let table = make_table(alloc, function)?;
    let told = first_live(alloc, table.nodes.as_slice(), table.entry)?;
    Ok(told)
}

fn told_in_item(alloc: Global, item: &Item) -> Result<Option<Limits>, AllocError>
    requires { IsItemAnnotated item.now }
    ensures { IfOk result (λ told. ToldAmong (functions_among (item_view item.now ∷ [])) told) }
{
    match item {
        Item::Function(function) => {
            let told = told_in_function(alloc, function)?;
            Ok(told)
        }
        Item::Data(_) => Ok(None),
    }
}

/// The address that is reported of the items, if there is one.
fn told_in_items(alloc: Global, items: &[Item]) -> Result<Option<Limits>, AllocError>
    requires { AreItemsAnnotated items.now }
    ensures { IfOk result (λ told. ToldAmong (functions_among (map item_view items.now)) told) }
{
    let mut least = None;
    for item in items {
        let here = told_in_item(alloc, item)?;
        least = first(least, here);
    }
    Ok(least)
}

/// Refuses a file with an address that is used after a frame point that it was bound before. It reports the
/// first use, of its frame points the first, and of its bindings the first. Each node of the functions has
/// to hold its type.
pub(crate) fn check_file(alloc: Global, file: &File) -> Result<(), FrontError>
    requires { AreItemsAnnotated (contents file.now.items) }
    ensures settled { IfOk result (λ _. (bound point used : ℕ) →
        IsLive (file_view file.now) bound point used → ⊥) }
    ensures fault { IfErr result (λ e. IsRefusal (file_view file.now) e) }
{
    let told = told_in_items(alloc, file.items.as_slice())?;
    match told {
        None => Ok(()),
        Some(told) => {
            let Limits { bound, point, used } = told;
            Err(FrontError::Fault(Fault::AddrLive { bound, point, used }))
        }
    }
}
