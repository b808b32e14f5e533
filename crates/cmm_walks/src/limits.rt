//! The places up to which addresses are searched for.
ghost use Rattle.std.specs.Prelude.{◌≡◌};
ghost use Rattle.cmm_walks.specs.First.{with_part};

/// The greatest places that are asked for, in bytes from the start of the text.
#[derive(Clone, Copy)]
pub struct Limits {
    /// That of a binding.
    pub bound: u32,
    /// That of a frame point.
    pub point: u32,
    /// That of a use.
    pub used: u32,
}

/// A place that the search is for.
#[derive(Clone, Copy)]
pub enum Part {
    /// That of a use.
    Used,
    /// That of a frame point.
    Point,
    /// That of a binding.
    Bound,
}

/// The limits with another limit for this part.
pub fn with_part(limits: Limits, part: Part, limit: u32) -> Limits
    ensures { result ≡ with_part limits part limit }
{
    let Limits { bound, point, used } = limits;
    match part {
        Part::Used => Limits {
            used: limit,
            point,
            bound,
        },
        Part::Point => Limits {
            used,
            point: limit,
            bound,
        },
        Part::Bound => Limits {
            used,
            point,
            bound: limit,
        },
    }
}
