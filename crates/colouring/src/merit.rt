//! How good a colour is for a register.
ghost use Rattle.std.specs.Prelude.{◌≡◌};
ghost use Rattle.colouring.specs.Chosen.{is_better};

/// What speaks for a colour, and against it. The counts have 128 bits since each of a register's
/// neighbours may have as many moves as memory holds.
#[derive(Clone, Copy)]
pub struct Merit {
    /// How many moves of the register have their other end there.
    pub own: u128,
    /// How many moves of its neighbours do.
    pub wanted: u128,
}

impl Merit {
    /// Whether a register had better be there than where the other merit is.
    pub fn is_better(self, other: Merit) -> bool
        ensures { result ≡ is_better self other }
    {
        if self.own == other.own {
            self.wanted < other.wanted
        } else {
            other.own < self.own
        }
    }
}
