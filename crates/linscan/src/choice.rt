//! What becomes of the next register.
ghost use Rattle.std.specs.Prelude.{◌≡◌};
ghost use Rattle.mach_ir.specs.Placed.{colour_numbers};
ghost use Rattle.linscan_rules.specs.Scan.{first_without};
ghost use Rattle.linscan.specs.Held.{is_shut, ends_after, later_holder, holder_to_give, last_holder, chosen};

use crate::active::Active;
use crate::closed::Closed;
use crate::order::OpenRegister;
use rv_isa::COLOURS;

/// A register that holds a colour.
#[derive(Clone, Copy)]
pub struct Holder {
    /// The register.
    pub register: OpenRegister,
    /// The number of the machine register.
    pub colour: u8,
}

/// What becomes of a register.
#[derive(Clone, Copy)]
pub enum Choice {
    /// It gets a colour that is free.
    Free(u8),
    /// It gets the colour of this one, which goes to its slot.
    Taken(Holder),
    /// It goes to its slot.
    Slot,
}

/// Whether a register ends after another, or with it and begins after it.
fn ends_after(one: OpenRegister, other: OpenRegister) -> bool
    ensures { result ≡ ends_after one other }
{
    if one.to != other.to {
        return other.to < one.to;
    }
    if one.from != other.from {
        return other.from < one.from;
    }
    other.number < one.number
}

/// The one that ends last.
fn later_holder(one: Option<Holder>, other: Option<Holder>) -> Option<Holder>
    ensures { result ≡ later_holder one other }
{
    match (one, other) {
        (None, _) => other,
        (Some(_), None) => one,
        (Some(first), Some(second)) => {
            if ends_after(second.register, first.register) {
                other
            } else {
                one
            }
        }
    }
}

/// Who holds the colour at a place and may give it.
fn holder_to_give(active: &Active, closed: &Closed, from: u32, colour: u8) -> Option<Holder>
    ensures { result ≡ holder_to_give active.now closed.now from colour }
{
    if closed.at(colour) {
        return None;
    }
    match active.at(colour) {
        None => None,
        Some(register) => {
            if from <= register.to {
                Some(Holder { register, colour })
            } else {
                None
            }
        }
    }
}

/// Of those that hold these colours at a place and may give them, the one that ends last.
fn last_holder(active: &Active, closed: &Closed, from: u32, colours: &[u8]) -> Option<Holder>
    ensures { result ≡ last_holder active.now closed.now from colours.now }
{
    let mut last = None;
    let mut left = colours.len();
    while left > 0 {
        left -= 1;
        last = later_holder(holder_to_give(active, closed, from, colours[left]), last);
    }
    last
}

/// Whether the colour is closed, or held at a place.
fn is_shut(active: &Active, closed: &Closed, from: u32, colour: u8) -> bool
    ensures { result ≡ is_shut active.now closed.now from colour }
{
    closed.at(colour) || active.is_held(colour, from)
}

/// The first of these colours that is neither closed nor held at a place.
fn first_open(active: &Active, closed: &Closed, from: u32, colours: &[u8]) -> Option<u8>
    ensures { result ≡ first_without (is_shut active.now closed.now from) colours.now }
{
    let mut first = None;
    let mut left = colours.len();
    while left > 0 {
        left -= 1;
        let colour = colours[left];
        if !is_shut(active, closed, from, colour) {
            first = Some(colour);
        }
    }
    first
}

/// The place of the next register, where these hold colours and these are closed to it: a colour that
/// is free, or else that of the one that ends last, this one counted.
pub fn choose(active: &Active, closed: &Closed, register: OpenRegister) -> Choice
    ensures { result ≡ chosen active.now closed.now register colour_numbers }
{
    if let Some(colour) = first_open(active, closed, register.from, &COLOURS) {
        return Choice::Free(colour);
    }
    match last_holder(active, closed, register.from, &COLOURS) {
        None => Choice::Slot,
        Some(holder) => {
            if register.to < holder.register.to {
                Choice::Taken(holder)
            } else {
                Choice::Slot
            }
        }
    }
}
