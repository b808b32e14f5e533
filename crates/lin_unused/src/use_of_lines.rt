//! Which lines have no use.
ghost use Rattle.std.specs.Prelude.{◌<◌, ◌≤◌, ◌↔◌, ◌^◌, All, drop, length, IfOk, IsTrue};
ghost use Rattle.lin_laws.specs.Graph.{AreNumbered};
ghost use Rattle.lin_flow.specs.Labels.{AreLabelsOf};
ghost use Rattle.lin_flow.specs.Sizes.{IsCountable};
ghost use Rattle.lin_flow.specs.Walked.{AreLive};
ghost use Rattle.lin_tidy_rules.specs.Leaving.{LabelsBetween};
ghost use Rattle.lin_tidy_rules.specs.Vals.{as_vals};
ghost use Rattle.lin_unused.specs.Flags.{IsSearched, AllReached, AreRead, TellsSkipped, TellsIdle, TellsUse, AreUseFlags};
ghost use Rattle.lin_unused.specs.Forms.{IsNoSelfMove};

use crate::forms::{is_label, is_landing, jump_of, no_self_moves, self_move};
use crate::vals::as_vals;
use lin_flow::lines::number_of;
use lin_flow::{LineLabels, LiveWalks, Walks, live_walks, search_walks};
use lin_ir::{Lin, Line};
use std::alloc::{AllocError, Global};

/// Whether only labels are from the one place to the other.
fn labels_between(code: &[Line], from: usize, to: usize) -> bool
    requires { to ≤ length code.now }
    ensures { from ≤ length code.now →
        IsTrue result ↔ LabelsBetween (drop from code.now) (drop to code.now) }
{
    if to < from {
        return false;
    }
    for place in from..to {
        if !is_label(&code[place]) {
            return false;
        }
    }
    true
}

/// Whether the line at the place jumps to where control comes without it.
fn is_skipped(lin: &Lin, labels: &LineLabels, place: u32) -> bool
    requires place { place < length lin.now.code }
    requires small { length lin.now.code < 2 ^ 32 }
    requires labels { AreLabelsOf lin.now labels.now }
    ensures { TellsSkipped lin.now place result }
{
    let code = lin.code.as_slice();
    match jump_of(&code[place as usize]) {
        None => false,
        Some(label) => {
            let to = labels.place_of(label);
            labels_between(code, place as usize + 1, to as usize)
        }
    }
}

/// Whether the line at a place that walks come to has no use: it moves a location to itself that is
/// not read, or jumps to where control comes without it.
fn is_idle(lin: &Lin, walks: &LiveWalks, labels: &LineLabels, place: u32) -> bool
    requires place { place < length lin.now.code }
    requires countable { IsCountable lin.now }
    requires numbered { AreNumbered lin.now }
    requires labels { AreLabelsOf lin.now labels.now }
    ensures { TellsIdle lin.now walks.now place result }
{
    match self_move(&lin.code.as_slice()[place as usize]) {
        None => is_skipped(lin, labels, place),
        Some(loc) => !walks.is_live_after(place, number_of(loc)),
    }
}

/// Whether the line at the place has no use. What walks come to, and what they read, is that of the
/// function as vals.
fn is_useless(lin: &Lin, walks: &LiveWalks, labels: &LineLabels, place: u32) -> bool
    requires place { place < length lin.now.code }
    requires countable { IsCountable lin.now }
    requires numbered { AreNumbered lin.now }
    requires walks { AreLive (as_vals lin.now) walks.now }
    requires labels { AreLabelsOf lin.now labels.now }
    ensures { TellsUse lin.now place result }
{
    if is_landing(&lin.code.as_slice()[place as usize].op) {
        return false;
    }
    if !walks.is_reached(place) {
        return true;
    }
    is_idle(lin, walks, labels, place)
}

/// For each line, whether it has no use, by what walks read.
fn by_reads(alloc: Global, lin: &Lin) -> Result<Vec<bool>, AllocError>
    requires countable { IsCountable lin.now }
    requires numbered { AreNumbered lin.now }
    ensures { IfOk result (λ flags. AreUseFlags lin.now flags.items) }
{
    let count = lin.code.len() as u32;
    let vals = as_vals(alloc, lin)?;
    let walks = live_walks(alloc, &vals)?;
    let labels = LineLabels::of_function(alloc, lin)?;
    let mut flags = Vec::with_capacity(alloc, lin.code.len())?;
    for place in 0..count {
        flags.push(is_useless(lin, &walks, &labels, place))?;
    }
    Ok(flags)
}

/// Whether the line at the place has no use, in a function where none moves a location to itself.
fn is_passed_over(lin: &Lin, walks: &Walks, reached: u32, labels: &LineLabels, place: u32) -> bool
    requires place { place < length lin.now.code }
    requires small { length lin.now.code < 2 ^ 32 }
    requires still { All IsNoSelfMove lin.now.code }
    requires walked { IsSearched lin.now walks.now reached }
    requires labels { AreLabelsOf lin.now labels.now }
    ensures { TellsUse lin.now place result }
{
    if is_landing(&lin.code.as_slice()[place as usize].op) {
        return false;
    }
    if !walks.search.has_first(place, reached) {
        return true;
    }
    is_skipped(lin, labels, place)
}

/// For each line, whether it has no use, by where walks come.
fn by_walks(alloc: Global, lin: &Lin) -> Result<Vec<bool>, AllocError>
    requires countable { IsCountable lin.now }
    requires numbered { AreNumbered lin.now }
    requires still { All IsNoSelfMove lin.now.code }
    ensures { IfOk result (λ flags. AreUseFlags lin.now flags.items) }
{
    let count = lin.code.len() as u32;
    let labels = LineLabels::of_function(alloc, lin)?;
    let walks = search_walks(alloc, lin, &labels)?;
    let reached = walks.nodes.len() as u32;
    let mut flags = Vec::with_capacity(alloc, lin.code.len())?;
    for place in 0..count {
        flags.push(is_passed_over(lin, &walks, reached, &labels, place))?;
    }
    Ok(flags)
}

/// For each line, whether it has no use, where walks come to all but landings, and moves of a
/// location to itself are read.
fn by_labels(alloc: Global, lin: &Lin) -> Result<Vec<bool>, AllocError>
    requires small { length lin.now.code < 2 ^ 32 }
    requires reached { AllReached lin.now }
    requires read { AreRead lin.now }
    ensures { IfOk result (λ flags. AreUseFlags lin.now flags.items) }
{
    let count = lin.code.len() as u32;
    let labels = LineLabels::of_function(alloc, lin)?;
    let mut flags = Vec::with_capacity(alloc, lin.code.len())?;
    for place in 0..count {
        flags.push(is_skipped(lin, &labels, place))?;
    }
    Ok(flags)
}

/// For each line, whether it has no use. What is read counts only for moves of a location to itself.
///
/// Each location has to be a register of the machine or one of the function's slots, and there have to
/// be numbers for lines and slots. The only error is want of memory, which more positions of walks than
/// there are numbers are too.
pub fn useless_lines(alloc: Global, lin: &Lin) -> Result<Vec<bool>, AllocError>
    requires countable { IsCountable lin.now }
    requires numbered { AreNumbered lin.now }
    ensures { IfOk result (λ flags. AreUseFlags lin.now flags.items) }
{
    if no_self_moves(lin.code.as_slice()) {
        by_walks(alloc, lin)
    } else {
        by_reads(alloc, lin)
    }
}

/// The same of what is left when lines without use have gone: walks come to all of it, and moves of
/// a location to itself are still read if none of them went. The only error is want of memory, which
/// more positions of walks than there are numbers are too.
pub fn useless_lines_left(
    alloc: Global,
    lin: &Lin,
    no_move_went: bool,
) -> Result<Vec<bool>, AllocError>
    requires countable { IsCountable lin.now }
    requires numbered { AreNumbered lin.now }
    requires reached { AllReached lin.now }
    requires read { IsTrue no_move_went → AreRead lin.now }
    ensures { IfOk result (λ flags. AreUseFlags lin.now flags.items) }
{
    if no_move_went {
        by_labels(alloc, lin)
    } else {
        by_reads(alloc, lin)
    }
}
