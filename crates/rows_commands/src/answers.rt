//! The tables of which each row is answered by itself.
use anyhow::Result;
use rows_answers::{devices, faults, limits, listings};
use rows_base::Layer;
use rows_compiled::{compiled, generated, jobs, plans};
use rows_lines::{Table, Top};
use rows_top::evaluated;
use std::thread::Threads;

/// What a table is about of which each row is answered by itself. It says how its rows are read and what is shown of the
/// answers. Where no module of `rows_answers`, `rows_compiled` or `rows_top` is named, a row has the form of `rows_lines`,
/// and all that `cmmc` says to it is shown.
#[derive(Clone, Copy)]
pub(crate) enum Answers {
    /// What a layer below the compiler says (`rows_base`).
    Base(Layer),
    /// How operations and structures of Mach and Linear print (`rows_stages`).
    Stages,
    /// Words that are no command, values in and out of their grammars and limits, the commands' answers, and reads and
    /// writes that fail in turn. The answers were counted by hand.
    Commands,
    /// The command `check`: its outcomes, what it needs, and each way in which it has none. The answers were counted by
    /// hand.
    Checks,
    /// Faults of texts and their places (`faults`).
    Faults,
    /// Devices of which one read or one write goes wrong (`devices`).
    Devices,
    /// Texts at the ends of the limits, and just past them (`limits`).
    Limits,
    /// What `cmmc list` prints of texts (`listings`).
    Listings,
    /// Runs of compiled texts under plans that a hand made (`plans`).
    Plans,
    /// Texts of the whole language (`compiled`).
    Compiled,
    /// The texts of `compiled`, by the choices that are not the defaults: what they come to is the same (`compiled`).
    Choices,
    /// Texts with every operator, chunk, comparison and form of operands, with external calls and frame calls that
    /// answer, and with every form of control, each compiled and run at the edges of words, under several ways to move
    /// blocks. The answers are what an evaluator in another language makes of the meaning of these texts.
    Operators,
    /// How `cmmc run` runs images that were put together by hand. They make frame calls, external calls and allocation
    /// services where blocks move, where a service refuses what it finds, and where the run ends. Each is there in both
    /// versions of images. The outcomes are those of a second machine, written from the rules of the machine alone.
    ///
    /// After them come 71 images of one function each, whose words are those that are wanted of the last 71 functions of
    /// the table `functions` (`rows_code`): each operation, test and chunk of Linear. What they return, raise, call or ask
    /// was counted by hand.
    Images,
    /// Texts of the generator, under every way in which the mover may ask, and by their meaning (`generated`).
    Generated,
    /// That a compile by several jobs shares functions among threads (`jobs`).
    Held,
    /// That an image does not show by how many jobs it was made, and that all functions are heard of (`jobs`).
    Shared,
    /// Runs of texts of the whole language, under frames and addresses that a hand made (`evaluated`).
    Evaluated,
}

impl Answers {
    /// What the table with this name is about.
    pub(crate) fn of(name: &str) -> Result<Answers> {
        match name {
            "stages" => Ok(Answers::Stages),
            "commands" => Ok(Answers::Commands),
            "checks" => Ok(Answers::Checks),
            "faults" => Ok(Answers::Faults),
            "devices" => Ok(Answers::Devices),
            "limits" => Ok(Answers::Limits),
            "listings" => Ok(Answers::Listings),
            "plans" => Ok(Answers::Plans),
            "compiled" => Ok(Answers::Compiled),
            "choices" => Ok(Answers::Choices),
            "operators" => Ok(Answers::Operators),
            "images" => Ok(Answers::Images),
            "generated" => Ok(Answers::Generated),
            "held" => Ok(Answers::Held),
            "shared" => Ok(Answers::Shared),
            "evaluated" => Ok(Answers::Evaluated),
            _ => Ok(Answers::Base(Layer::of(name)?)),
        }
    }

    /// What is shown of a row. `image` has the bytes of the last image that a row of `rows_base` gave.
    pub(crate) fn said_to<R: Threads + Sync, T: Top>(
        self,
        table: &mut Table<'_, R, T>,
        image: &mut Vec<u8>,
        row: &str,
    ) -> Result<Vec<u8>> {
        match self {
            Answers::Base(layer) => layer.said_to(table.alloc(), image, row),
            Answers::Stages => rows_stages::said_to(table.alloc(), row),
            Answers::Commands | Answers::Checks | Answers::Operators | Answers::Images => {
                Ok(table.said_to(row)?)
            }
            Answers::Faults => Ok(faults::said_to(table, row)?),
            Answers::Devices => Ok(devices::said_to(table, row)?),
            Answers::Limits => limits::said_to(table, row),
            Answers::Listings => listings::said_to(table, row),
            Answers::Plans => plans::said_to(table, row),
            Answers::Compiled | Answers::Choices => compiled::said_to(table, row),
            Answers::Generated => Ok(generated::said_to(table, row)?),
            Answers::Held => Ok(jobs::held(table, row)?),
            Answers::Shared => Ok(jobs::shared(table, row)?),
            Answers::Evaluated => evaluated::said_to(table.alloc(), row),
        }
    }
}
