//! The order of the faults of a text, and which of several is reported.
ghost use Rattle.std.specs.Prelude.{◌≡◌};
ghost use Rattle.bs_fault.specs.Order.{fault_number, fault_place};
ghost use Rattle.bs_fault.specs.Reported.{precedes, noted, noted_all, one_if, faults_of_option};

use crate::fault::Fault;

impl Fault {
    /// Where the fault is, in bytes from the start of the text; of an address that is used, where the
    /// use is.
    pub fn place(self) -> u32
        ensures { result ≡ fault_place self }
    {
        match self {
            Fault::TooLong { at } => at,
            Fault::BadToken { at } => at,
            Fault::Unclosed { at } => at,
            Fault::Unexpected { at } => at,
            Fault::TooDeep { at } => at,
            Fault::IntRange { at } => at,
            Fault::TooManyParams { at } => at,
            Fault::FunctionTooLong { at } => at,
            Fault::DataTooLarge { at } => at,
            Fault::DataItem { at } => at,
            Fault::Unbound { at } => at,
            Fault::UnknownSymbol { at } => at,
            Fault::DuplicateSymbol { at } => at,
            Fault::Arity { at } => at,
            Fault::NoValue { at } => at,
            Fault::NotMutable { at } => at,
            Fault::AllocHeader { at } => at,
            Fault::UnknownLabel { at } => at,
            Fault::Float { at } => at,
            Fault::AddrLive {
                bound: _,
                point: _,
                used,
            } => used,
            Fault::AddrArgument { at } => at,
            Fault::SwitchSize { at } => at,
        }
    }

    /// The number of the fault: 11 for F11.
    pub fn number(self) -> u32
        ensures { result ≡ fault_number self }
    {
        match self {
            Fault::TooLong { at: _ } => 1,
            Fault::BadToken { at: _ } => 2,
            Fault::Unclosed { at: _ } => 3,
            Fault::Unexpected { at: _ } => 4,
            Fault::TooDeep { at: _ } => 5,
            Fault::IntRange { at: _ } => 6,
            Fault::TooManyParams { at: _ } => 7,
            Fault::FunctionTooLong { at: _ } => 8,
            Fault::DataTooLarge { at: _ } => 9,
            Fault::DataItem { at: _ } => 10,
            Fault::Unbound { at: _ } => 11,
            Fault::UnknownSymbol { at: _ } => 12,
            Fault::DuplicateSymbol { at: _ } => 13,
            Fault::Arity { at: _ } => 14,
            Fault::NoValue { at: _ } => 15,
            Fault::NotMutable { at: _ } => 16,
            Fault::AllocHeader { at: _ } => 17,
            Fault::UnknownLabel { at: _ } => 18,
            Fault::Float { at: _ } => 19,
            Fault::AddrLive {
                bound: _,
                point: _,
                used: _,
            } => 20,
            Fault::AddrArgument { at: _ } => 21,
            Fault::SwitchSize { at: _ } => 22,
        }
    }

    /// Whether this fault comes before another: it is further left, or at the same place and has the
    /// lower number.
    pub fn precedes(self, other: Fault) -> bool
        ensures { result ≡ precedes self other }
    {
        let here = self.place();
        let there = other.place();
        here < there || (here == there && self.number() < other.number())
    }
}

/// The fault that is reported of one that was found before and a further one.
pub fn noted(fault: Fault, found: Option<Fault>) -> Option<Fault>
    ensures { result ≡ noted fault found }
{
    match found {
        None => Some(fault),
        Some(found) => {
            if fault.precedes(found) {
                Some(fault)
            } else {
                Some(found)
            }
        }
    }
}

/// The same for a fault that is there only if a condition holds.
pub fn noted_if(condition: bool, fault: Fault, found: Option<Fault>) -> Option<Fault>
    ensures { result ≡ noted_all (one_if condition fault) found }
{
    if condition {
        noted(fault, found)
    } else {
        found
    }
}

/// The same for a fault, if there is one.
pub fn noted_optional(fault: Option<Fault>, found: Option<Fault>) -> Option<Fault>
    ensures { result ≡ noted_all (faults_of_option fault) found }
{
    match fault {
        Some(fault) => noted(fault, found),
        None => found,
    }
}
