//! What hears of the functions that a compile takes up.
use std::sync::atomic::{AtomicBool, AtomicU64, Ordering};
use std::thread;

/// For how many turns function 0 is held.
const TURNS: u64 = 100_000_000;

/// After how many turns other threads are let on.
const PATIENCE: u64 = 1024;

/// What a compile reports of each function.
#[derive(Clone, Copy)]
pub enum Watch<'a> {
    /// Nothing hears.
    Open,
    /// Function 0 is held.
    Held(&'a Holding),
    /// The functions are counted.
    Counted(&'a Counting),
}

impl<'a> Watch<'a> {
    /// The compile of this function begins when this returns.
    pub fn enter(self, piece: u32) {
        match self {
            Watch::Open => {}
            Watch::Held(holding) => holding.enter(piece),
            Watch::Counted(counting) => counting.enter(piece),
        }
    }

    /// The compile of this function has ended.
    pub fn leave(self, piece: u32) {
        match self {
            Watch::Open => {}
            Watch::Held(_) => {}
            Watch::Counted(counting) => counting.leave(piece),
        }
    }
}

/// Holds function 0 until function 1 has been let in, or for all turns.
#[derive(Drop)]
pub struct Holding {
    has_entered: AtomicBool,
    has_seen: AtomicBool,
}

impl Holding {
    /// Nothing has been let in.
    pub fn new() -> Holding {
        Holding {
            has_entered: AtomicBool::new(false),
            has_seen: AtomicBool::new(false),
        }
    }

    /// Whether function 1 was let in while function 0 was held.
    pub fn has_seen(&self) -> bool {
        self.has_seen.load(Ordering::SeqCst)
    }

    fn enter(&self, piece: u32) {
        if piece == 0 {
            self.hold();
        } else {
            self.has_entered.store(true, Ordering::SeqCst);
        }
    }

    fn hold(&self) {
        for turn in 0..TURNS {
            if self.has_entered.load(Ordering::SeqCst) {
                self.has_seen.store(true, Ordering::SeqCst);
                return;
            }
            if turn % PATIENCE == 0 {
                thread::yield_now();
            }
        }
    }
}

/// Adds up the numbers of the functions, counted from 1, which enter and which leave.
#[derive(Drop)]
pub struct Counting {
    entered: AtomicU64,
    left: AtomicU64,
}

impl Counting {
    /// No function has entered or left.
    pub fn new() -> Counting {
        Counting {
            entered: AtomicU64::new(0),
            left: AtomicU64::new(0),
        }
    }

    /// The sum of those that entered.
    pub fn entered(&self) -> u64 {
        self.entered.load(Ordering::SeqCst)
    }

    /// The sum of those that left.
    pub fn left(&self) -> u64 {
        self.left.load(Ordering::SeqCst)
    }

    fn enter(&self, piece: u32) {
        self.entered
            .fetch_add(u64::from(piece) + 1, Ordering::SeqCst);
    }

    fn leave(&self, piece: u32) {
        self.left.fetch_add(u64::from(piece) + 1, Ordering::SeqCst);
    }
}
