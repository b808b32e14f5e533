//! The top call of `cmmc`, for the libraries of rows.
use bs_io::MemSource;
use cmmc_core::{Gate, cmmc};
use rows_lines::{Sticking, Top, Watch};
use std::alloc::Global;
use std::thread::Threads;

/// The top call.
#[derive(Clone, Copy)]
pub struct Called {
    /// Where memory comes from.
    pub alloc: Global,
}

impl Top for Called {
    fn status<R: Threads + Sync>(
        &self,
        rt: &R,
        words: &[String],
        source: &mut MemSource,
        out: &mut Sticking,
        err: &mut Sticking,
        watch: Watch,
    ) -> u8 {
        cmmc(rt, self.alloc, words, source, out, err, &Watched(watch))
    }
}

/// A gate that reports to a watch.
#[derive(Clone, Copy)]
struct Watched<'a>(Watch<'a>);

impl<'a> Gate for Watched<'a> {
    fn enter(&self, piece: u32) {
        self.0.enter(piece);
    }

    fn leave(&self, piece: u32) {
        self.0.leave(piece);
    }
}
