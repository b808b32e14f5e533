//! Before which places a register is fresh that lives over the instruction there.
ghost use Rattle.std.specs.Prelude.{◌≡◌, ◌<◌, length, replicate, IfOk};
ghost use Rattle.std.specs.List.{All};
ghost use Rattle.bs_words.specs.Contents.{contents};
ghost use Rattle.dataflow.specs.Flow.{IsFlowFormed};
ghost use Rattle.dataflow.specs.Rows.{set_in_row};
ghost use Rattle.sink.specs.Sights.{sighted, noted_numbers, noted_places};

use dataflow::{Flow, Rows};
use std::alloc::{AllocError, Global};

/// Before how many places a number was seen.
#[derive(Clone, Copy)]
pub enum Sight {
    /// Before none.
    Unseen,
    /// Before this one alone.
    Once(usize),
    /// Before two or more.
    Often,
}

/// The number was seen before this place too.
fn noted(place: usize, sight: Sight) -> Sight
    ensures { result ≡ sighted place sight }
{
    match sight {
        Sight::Unseen => Sight::Once(place),
        Sight::Once(other) => {
            if other == place {
                Sight::Once(other)
            } else {
                Sight::Often
            }
        }
        Sight::Often => Sight::Often,
    }
}

/// Notes those of the numbers that are fresh at the place.
fn note(sights: &mut Vec<Sight>, fresh: &Rows, place: usize, numbers: &[u32])
    requires { All (λ n. n < length sights.old.items) numbers.now }
    ensures len { length sights.new.items ≡ length sights.old.items }
    ensures sighted { sights.new.items
        ≡ noted_numbers (set_in_row fresh.now.rows.items place) place numbers.now sights.old.items }
{
    for number in numbers {
        if fresh.contains(place, *number) {
            let index = *number as usize;
            let sight = noted(place, sights[index]);
            sights[index] = sight;
        }
    }
}

/// For each number, before which places it is fresh and lives over the instruction: those that the graph
/// of what is fresh kills there. The only error is want of memory.
pub fn sights(alloc: Global, fresh: &Rows, flow: &Flow) -> Result<Vec<Sight>, AllocError>
    requires { IsFlowFormed flow.now }
    ensures { IfOk result (λ made. made.items
        ≡ noted_places fresh.now.rows.items 0 (contents flow.now.places)
        (replicate flow.now.bound Sight.Unseen)) }
{
    let mut made = vec![in alloc; Sight::Unseen; flow.bound as usize]?;
    for place in 0..flow.places.len() {
        note(
            &mut made,
            fresh,
            place,
            flow.places[place].writes.as_slice(),
        );
    }
    Ok(made)
}
