//! When the mover acts, and what it does.
ghost use Rattle.std.specs.Prelude.{◌≡◌, suc};
ghost use Rattle.alloc_service.specs.Plan.{plan_of};
ghost use Rattle.mover_runtime.specs.declared.schedule.Schedule.{Schedule};
ghost use Rattle.mover_runtime.specs.Schedules.{schedule_of};
ghost use Rattle.mover_runtime.specs.Standing.{StandsAt};

use alloc_service::Plan;
use bs_words::List;
use mover_plans::{SeededAsks, plan_word};

/// When the mover asks, and where it moves blocks.
#[derive(Drop)]
pub enum Schedule {
    /// It asks for nothing and plans nothing.
    Never,
    /// It asks before each instruction and plans nothing.
    Every,
    /// It asks and plans by the words of this seed.
    Seed(u64),
    /// It asks before the instructions of these numbers, counted from 0 and in any order. The first plan
    /// is for the first service that moves, of an allocation or of a frame call, and so on; a plan has a
    /// new start for each block, by serial.
    Lists {
        /// The numbers of the instructions before which it asks.
        asks: List<u64>,
        /// The plans, one for each service from the first on. A start is an address in bytes.
        plans: List<List<u64>>,
    },
}

impl Schedule {
    /// What the mover plans at the service of that number, counted from 0: those of allocations and of
    /// frame calls count.
    pub(crate) fn plan(&self, service: u64) -> Plan<'_>
        ensures { plan_of result ≡ (schedule_of self.now).plan service }
    {
        match self {
            Schedule::Never | Schedule::Every => Plan::Packed,
            Schedule::Seed(seed) => Plan::Drawn {
                word: plan_word(*seed, service),
            },
            Schedule::Lists { plans, .. } => match plans.get(service as usize) {
                Some(starts) => Plan::Starts(starts.as_slice()),
                None => Plan::Packed,
            },
        }
    }

    /// The asks, from the first instruction on.
    pub(crate) fn asks(&self) -> Asks<'_>
        ensures { StandsAt self.now 0 result }
    {
        match self {
            Schedule::Never => Asks::Never,
            Schedule::Every => Asks::Every,
            Schedule::Seed(seed) => Asks::Seeded(SeededAsks::new(*seed)),
            Schedule::Lists { asks, .. } => Asks::Among(asks.as_slice()),
        }
    }
}

/// The asks of a schedule, one instruction after the other.
#[derive(Drop)]
pub(crate) enum Asks<'a> {
    Never,
    Every,
    Seeded(SeededAsks),
    /// Before the instructions of these numbers.
    Among(&'a [u64]),
}

impl Asks<'_> {
    /// Whether the mover asks before the next instruction, which has that number.
    #[inline]
    pub(crate) fn next(&mut self, number: u64) -> bool
        ensures asks { (s : Schedule) → StandsAt s number self.old →
            result ≡ (schedule_of s).asks number }
        ensures on { (s : Schedule) → StandsAt s number self.old →
            StandsAt s (suc number) self.new }
    {
        match self {
            Asks::Never => false,
            Asks::Every => true,
            Asks::Seeded(asks) => asks.next(),
            Asks::Among(numbers) => numbers.contains(&number),
        }
    }
}
