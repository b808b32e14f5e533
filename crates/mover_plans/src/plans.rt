//! The plans of a seed.
//!
//! The word of a service is found by a jump of the generator, and not by a second one that runs along: the
//! word is the same.
ghost use Rattle.std.specs.Prelude.{◌≡◌};
ghost use Rattle.bs_words.specs.Word.{add_word};
ghost use Rattle.mover_plans.specs.Words.{seed_word};

use rand_core::SeedableRng;
use rand_core::utils::NextWord;
use rand_pcg::Lcg64Xsh32;

/// The word by which the mover of a seed plans at a service, the services being numbered from 0: the
/// word of that number of the next seed.
pub fn plan_word(seed: u64, service: u64) -> u64
    ensures { result ≡ seed_word (add_word seed 1) service }
{
    let mut words = Lcg64Xsh32::seed_from_u64(seed.wrapping_add(1));
    words.advance(service);
    u64::from(words.next_word())
}
