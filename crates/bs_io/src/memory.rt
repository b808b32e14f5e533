//! A source and a sink over memory, whose calls can be made to fail or to move few bytes.
ghost use Rattle.std.specs.Prelude.{◌≡◌, ◌↔◌, ◌≤◌, ◌<◌, min, length, take, drop, [], IfOk, OnErr, IsErr, Contains, ◌⊎◌, Some};
ghost use Rattle.std.specs.Io.KnownBytes.{Consumes, Appends, Keeps, IsAtEnd};
ghost use Rattle.bs_words.specs.Contents.{contents};
ghost use Rattle.bs_io.specs.Faults.{Risen};
ghost use Rattle.bs_io.specs.Memory.{Reading, Writing, read_count, write_count, after_read, after_failed_read, after_write, after_failed_write};

use crate::sink::Sink;
use crate::source::{Failed, Source};
use bs_words::List;
use std::alloc::{AllocError, Global};
use std::marker::Model;

/// A source over bytes in memory. Given calls fail, and no call moves more than a given number of bytes.
#[derive(Drop)]
pub struct MemSource {
    bytes: List<u8>,
    taken: usize,
    fails: List<u64>,
    most: usize,
    calls: u64,
    faults: u64,
}

impl Model for MemSource {
    ghost use Rattle.std.specs.Prelude.{◌≤◌, length, drop};
    ghost use Rattle.bs_words.specs.Contents.{contents};
    ghost use Rattle.bs_io.specs.Memory.{Reading};

    ghost Value = { Reading };

    ghost view = { λ s. record {
      left = drop s.taken (contents s.bytes);
      fails = contents s.fails;
      most = s.most;
      calls = s.calls;
      faults = s.faults;
    } };

    ghost invariant = { λ s. (s.taken ≤ length (contents s.bytes)) × (1 ≤ s.most) };
}

impl MemSource {
    /// A source of those bytes. The calls with the numbers in `fails`, counted from 0, fail; each other
    /// call moves at most `most` bytes. It takes no memory.
    pub fn new(bytes: List<u8>, fails: List<u64>, most: usize) -> MemSource
        requires { 1 ≤ most }
        ensures { result ≡ record {
          left = contents bytes;
          fails = contents fails;
          most = most;
          calls = 0;
          faults = 0;
        } }
    {
        MemSource {
            bytes,
            taken: 0,
            fails,
            most,
            calls: 0,
            faults: 0,
        }
    }

    /// The bytes that are left.
    pub fn left(&self) -> &[u8]
        ensures { result.now ≡ self.now.left }
    {
        &self.bytes.as_slice()[self.taken..]
    }

    /// How many reads have failed, up to the greatest `u64`.
    pub fn faults(&self) -> u64
        ensures { result ≡ self.now.faults }
    {
        self.faults
    }
}

impl Source for MemSource {
    ghost left = { λ s. Some s.left };

    ghost faults = { λ s. s.faults };

    fn read(&mut self, into: &mut [u8]) -> Result<usize, Failed>
        // Which calls fail, how much each other call moves, and what is left.
        ensures fails { IsErr result ↔ Contains self.old.fails self.old.calls }
        ensures count { IfOk result (λ count. count ≡ read_count self.old (length into.new)) }
        ensures after { IfOk result (λ count. self.new ≡ after_read self.old count) }
        ensures after_failure { OnErr result (self.new ≡ after_failed_read self.old) }

        // The trait's clauses.
        ensures within { IfOk result (λ count. count ≤ length into.new) }
        ensures taken { IfOk result (λ count. Consumes (Some self.old.left) (Some self.new.left)
            (take count into.new)) }
        ensures end { IfOk result (λ count. count ≡ 0 → 0 < length into.new →
            IsAtEnd (Some self.new.left)) }
        ensures kept { OnErr result (Keeps (Some self.old.left) (Some self.new.left)) }
        ensures failed { OnErr result (Risen self.old.faults self.new.faults) }
        ensures never_falls { self.old.faults ≤ self.new.faults }
    {
        let call = self.calls;
        self.calls = call.saturating_add(1);
        if self.fails.as_slice().contains(&call) {
            self.faults = self.faults.saturating_add(1);
            return Err(Failed);
        }
        let count = copy_front(&self.bytes.as_slice()[self.taken..], into, self.most);
        self.taken += count;
        Ok(count)
    }
}

// Copies at most `most` bytes from the front of `from` to that of `into`, as many as both have.
fn copy_front(from: &[u8], into: &mut [u8], most: usize) -> usize
    ensures count { result ≡ min (length from.now) (min (length into.old) most) }
    ensures copied { take result into.new ≡ take result from.now }
{
    let count = from.len().min(into.len().min(most));
    into[..count].copy_from_slice(&from[..count]);
    count
}

/// A sink into memory that was taken at the start. Given calls fail, and no call takes more than a given
/// number of bytes.
#[derive(Drop)]
pub struct MemSink {
    held: Vec<u8>,
    room: usize,
    fails: List<u64>,
    most: usize,
    calls: u64,
    faults: u64,
}

impl Model for MemSink {
    ghost use Rattle.std.specs.Prelude.{◌≤◌, vec_len, vec_capacity};
    ghost use Rattle.bs_words.specs.Contents.{contents};
    ghost use Rattle.bs_io.specs.Memory.{Writing};

    ghost Value = { Writing };

    ghost view = { λ s. record {
      held = s.held.items;
      room = s.room;
      fails = contents s.fails;
      most = s.most;
      calls = s.calls;
      faults = s.faults;
    } };

    ghost invariant = { λ s. (vec_len s.held ≤ s.room) × (s.room ≤ vec_capacity s.held)
        × (1 ≤ s.most) };
}

impl MemSink {
    /// An empty sink with room for `room` bytes, which is the only memory that it takes. The calls with the
    /// numbers in `fails`, counted from 0, fail; each other call takes at most `most` bytes.
    /// Making it fails only for want of memory.
    pub fn new(
        alloc: Global,
        room: usize,
        fails: List<u64>,
        most: usize,
    ) -> Result<MemSink, AllocError>
        requires { 1 ≤ most }
        ensures { IfOk result (λ sink. sink ≡ record {
          held = [];
          room = room;
          fails = contents fails;
          most = most;
          calls = 0;
          faults = 0;
        }) }
    {
        Ok(MemSink {
            held: Vec::with_capacity(alloc, room)?,
            room,
            fails,
            most,
            calls: 0,
            faults: 0,
        })
    }

    /// The bytes that it holds.
    pub fn bytes(&self) -> &[u8]
        ensures { result.now ≡ self.now.held }
    {
        self.held.as_slice()
    }

    /// How many writes have failed, up to the greatest `u64`.
    pub fn faults(&self) -> u64
        ensures { result ≡ self.now.faults }
    {
        self.faults
    }
}

impl Sink for MemSink {
    ghost held = { λ s. Some s.held };

    ghost faults = { λ s. s.faults };

    fn write(&mut self, piece: &[u8]) -> Result<usize, Failed>
        // Which calls fail, among them each one with a nonempty piece and no room, how much each other
        // call takes, and what is held.
        ensures fails { IsErr result ↔ (Contains self.old.fails self.old.calls ⊎
            ((0 < length piece.now) × (self.old.room ≤ length self.old.held))) }
        ensures count { IfOk result (λ count. count ≡ write_count self.old (length piece.now)) }
        ensures after { IfOk result (λ count.
            self.new ≡ after_write self.old (take count piece.now)) }
        ensures after_failure { OnErr result (self.new ≡ after_failed_write self.old) }

        // The trait's clauses.
        ensures within { IfOk result (λ count. count ≤ length piece.now) }
        ensures appended { IfOk result (λ count. Appends (Some self.old.held) (Some self.new.held)
            (take count piece.now)) }
        ensures kept { OnErr result (Keeps (Some self.old.held) (Some self.new.held)) }
        ensures failed { OnErr result (Risen self.old.faults self.new.faults) }
        ensures stuck { IfOk result (λ count. count ≡ 0 → 0 < length piece.now →
            Risen self.old.faults self.new.faults) }
        ensures never_falls { self.old.faults ≤ self.new.faults }
    {
        let call = self.calls;
        self.calls = call.saturating_add(1);
        let free = self.room - self.held.len();
        let is_full = free == 0 && !piece.is_empty();
        if is_full || self.fails.as_slice().contains(&call) {
            self.faults = self.faults.saturating_add(1);
            return Err(Failed);
        }
        let count = free.min(piece.len().min(self.most));
        match self.held.extend_from_slice(&piece[..count]) {
            Ok(()) => Ok(count),
            // The room was taken at the start.
            Err(AllocError) => unreachable!(),
        }
    }
}
