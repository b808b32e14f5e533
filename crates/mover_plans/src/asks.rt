//! The asks of a seed.
ghost use Rattle.std.specs.Prelude.{◌≡◌, ◌%◌, ◌==◌};
ghost use Rattle.rand_pcg.specs.Pcg.{pcg32};
ghost use Rattle.mover_plans.specs.Words.{generator_after};

use rand_core::SeedableRng;
use rand_core::utils::NextWord;
use rand_pcg::Lcg64Xsh32;
use std::marker::Model;

/// The asks of a seed, one instruction after the other. Contracts see the generator that draws them.
#[derive(Drop)]
pub struct SeededAsks {
    words: Lcg64Xsh32,
}

impl Model for SeededAsks {
    ghost use Rattle.rand_pcg.specs.Lcg.{Lcg};

    ghost Value = { Lcg };

    ghost view = { λ a. a.words };
}

impl SeededAsks {
    /// The asks of a seed, from the first instruction on.
    pub fn new(seed: u64) -> Self
        ensures { result ≡ generator_after seed 0 }
    {
        SeededAsks {
            words: Lcg64Xsh32::seed_from_u64(seed),
        }
    }

    /// Whether the mover asks before the next instruction: where its word is a multiple of 64.
    #[inline]
    pub fn next(&mut self) -> bool
        ensures value { result ≡ ((pcg32 self.old).0 % 64 == 0) }
        ensures on { self.new ≡ (pcg32 self.old).1 }
    {
        self.words.next_word() % 64 == 0
    }
}
