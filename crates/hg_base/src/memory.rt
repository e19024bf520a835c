// Sources and sinks in memory.
ghost use Rattle.std.specs.Prelude.{◌≡◌, ◌+◌, ◌-◌, ◌^◌, ◌<◌, ◌≤◌, ◌↔◌, ◌⊎◌, [], ◌++◌, min, length, take, drop, Some, None, IsTrue, IsErr, IfOk, MatchResult};
ghost use Rattle.std.specs.Io.KnownBytes.{ReadConsumes, WriteAppends};
ghost use Rattle.hg_base.specs.Outside.{HasCause, Rose, raised, NextFails, first_calls, served, failed};

use super::fault::{Failed, OutOfMemory};
use super::outside::{Sink, Source, copy_front};
use std::alloc::Global;
use std::marker::Model;

// The calls of a source or a sink, of which some are to fail.
#[derive(Drop)]
struct Calls {
    fails: Vec<u64>,
    made: u64,
    faults: u64,
}

impl Model for Calls {
    ghost use Rattle.hg_base.specs.Outside.{CallCount};

    ghost Value = { CallCount };

    ghost view = { λ c. record { fails = c.fails.items; made = c.made; faults = c.faults } };
}

impl Calls {
    fn new(fails: Vec<u64>) -> Calls
        ensures { result ≡ first_calls fails.items }
    {
        Calls {
            fails,
            made: 0,
            faults: 0,
        }
    }

    // Counts a call, and says whether it is to fail.
    fn begin(&mut self) -> bool
        ensures fails { IsTrue result ↔ NextFails self.old }
        ensures after { self.new ≡ served self.old }
    {
        self.made = self.made.saturating_add(1);
        self.fails.contains(&self.made)
    }

    // Counts a fault.
    fn fail(&mut self) -> Failed
        ensures rose { Rose self.old.faults self.new.faults }
        ensures after { self.new ≡ record self.old { faults = raised self.old.faults } }
    {
        self.faults = self.faults.saturating_add(1);
        Failed
    }
}

// Bytes that are given away from the front.
#[derive(Drop)]
struct Remaining {
    bytes: Vec<u8>,
    at: usize,
}

impl Model for Remaining {
    ghost use Rattle.std.specs.Prelude.{ℕ, ◌≤◌, List, drop, vec_len};

    ghost Value = { List ℕ };

    ghost view = { λ r. drop r.at r.bytes.items };

    ghost invariant = { λ r. r.at ≤ vec_len r.bytes };
}

impl Remaining {
    fn new(bytes: Vec<u8>) -> Remaining
        ensures { result ≡ bytes.items }
    {
        Remaining { bytes, at: 0 }
    }

    // Moves the first bytes to the front of `into`, and no more than `most` of them.
    fn give(&mut self, most: usize, into: &mut [u8]) -> usize
        ensures count { result ≡ min (min most (length into.old)) (length self.old) }
        ensures moved { self.old ≡ take result into.new ++ self.new }
        ensures kept { drop result into.new ≡ drop result into.old }
    {
        let left = &self.bytes[self.at..];
        let count = most.min(into.len()).min(left.len());
        copy_front(left, count, into);
        self.at += count;
        count
    }
}

/// A source over bytes in memory, of which a read gives no more than a given number, and whose
/// reads with given numbers fail.
#[derive(Drop)]
pub struct MemSource {
    left: Remaining,
    largest: usize,
    calls: Calls,
}

impl Model for MemSource {
    ghost use Rattle.std.specs.Prelude.{◌≤◌};
    ghost use Rattle.hg_base.specs.Outside.{Supply};

    ghost Value = { Supply };

    ghost view = { λ s. record { left = s.left; largest = s.largest; calls = s.calls } };

    ghost invariant = { λ s. 1 ≤ s.largest };
}

impl MemSource {
    /// The source that gives these bytes, at most `largest` in a read. The reads whose numbers,
    /// from 1, stand in `fails` fail.
    pub fn new(bytes: Vec<u8>, largest: usize, fails: Vec<u64>) -> MemSource
        requires { 1 ≤ largest }
        ensures { result ≡ record { left = bytes.items; largest = largest; calls = first_calls fails.items } }
    {
        MemSource {
            left: Remaining::new(bytes),
            largest,
            calls: Calls::new(fails),
        }
    }
}

impl Source for MemSource {
    ghost left = { λ s. Some s.left };

    ghost faults = { λ s. s.calls.faults };

    /// Gives as many bytes as there are in the least of three: the largest number for a read,
    /// `into`, and the bytes that are left.
    fn read(&mut self, into: &mut [u8]) -> Result<usize, Failed>
        ensures bound { IfOk result (λ n. n ≤ length into.new) }
        ensures kept { MatchResult result (λ n. drop n into.new ≡ drop n into.old) (λ _. into.new ≡ into.old) }
        ensures bytes { ReadConsumes (Some self.old.left) (Some self.new.left) result into.new }
        ensures cause { HasCause self.old.calls.faults self.new.calls.faults result }

        ensures fails { IsErr result ↔ NextFails self.old.calls }
        ensures gives { IfOk result (λ n. n ≡ min (min self.old.largest (length into.old)) (length self.old.left)) }
        ensures after { MatchResult result
            (λ n. self.new ≡ record self.old { left = drop n self.old.left; calls = served self.old.calls })
            (λ _. self.new ≡ record self.old { calls = failed self.old.calls }) }
    {
        if self.calls.begin() {
            return Err(self.calls.fail());
        }
        Ok(self.left.give(self.largest, into))
    }
}

/// A source over bytes in memory whose reads never fail.
#[derive(Drop)]
pub struct QuietSource {
    left: Remaining,
}

impl Model for QuietSource {
    ghost use Rattle.std.specs.Prelude.{ℕ, List};

    ghost Value = { List ℕ };

    ghost view = { λ s. s.left };
}

impl QuietSource {
    /// The source that gives these bytes.
    pub fn new(bytes: Vec<u8>) -> QuietSource
        ensures { result ≡ bytes.items }
    {
        QuietSource {
            left: Remaining::new(bytes),
        }
    }
}

impl Source for QuietSource {
    ghost left = { λ s. Some s };

    ghost faults = { λ _. 0 };

    /// Gives all that is left, or as much of it as `into` has room for.
    fn read(&mut self, into: &mut [u8]) -> Result<usize, Failed>
        ensures bound { IfOk result (λ n. n ≤ length into.new) }
        ensures kept { MatchResult result (λ n. drop n into.new ≡ drop n into.old) (λ _. into.new ≡ into.old) }
        ensures bytes { ReadConsumes (Some self.old) (Some self.new) result into.new }
        ensures cause { HasCause 0 0 result }

        ensures gives { result ≡ Ok (min (length into.old) (length self.old)) }
    {
        Ok(self.left.give(into.len(), into))
    }
}

/// A sink that keeps its bytes in memory, up to a given number of them, of which a write takes no
/// more than another number, and whose writes with given numbers fail.
#[derive(Drop)]
pub struct MemSink {
    bytes: Vec<u8>,
    room: usize,
    largest: usize,
    calls: Calls,
}

impl Model for MemSink {
    ghost use Rattle.std.specs.Prelude.{◌≤◌, vec_len, vec_capacity};
    ghost use Rattle.hg_base.specs.Outside.{Store};

    ghost Value = { Store };

    ghost view = { λ s. record { content = s.bytes.items; room = s.room; largest = s.largest; calls = s.calls } };

    ghost invariant = { λ s. (vec_len s.bytes ≤ s.room) × (s.room ≤ vec_capacity s.bytes) × (1 ≤ s.largest) };
}

impl MemSink {
    /// The empty sink that takes `room` bytes in all, and at most `largest` in a write. The writes
    /// whose numbers, from 1, stand in `fails` fail.
    pub fn with_room(
        alloc: Global,
        room: usize,
        largest: usize,
        fails: Vec<u64>,
    ) -> Result<MemSink, OutOfMemory>
        requires { 1 ≤ largest }
        ensures { IfOk result (λ sink. sink ≡ record { content = []; room = room; largest = largest; calls = first_calls fails.items }) }
    {
        let bytes = Vec::with_capacity(alloc, room).map_err(|_| OutOfMemory)?;
        Ok(MemSink {
            bytes,
            room,
            largest,
            calls: Calls::new(fails),
        })
    }

    /// The bytes that the sink took, of all its writes.
    pub fn taken(&self) -> &[u8]
        ensures { result.now ≡ self.now.content }
    {
        self.bytes.as_slice()
    }
}

impl Sink for MemSink {
    ghost content = { λ s. Some s.content };

    ghost faults = { λ s. s.calls.faults };

    /// Takes as many bytes as there are in the least of three: the largest number for a write,
    /// `piece`, and the room that is left. A write fails too where a piece that isn't empty finds
    /// no room left.
    fn write(&mut self, piece: &[u8]) -> Result<usize, Failed>
        ensures bound { IfOk result (λ n. n ≤ length piece.now) }
        ensures some { IfOk result (λ n. 0 < length piece.now → 0 < n) }
        ensures bytes { WriteAppends (Some self.old.content) (Some self.new.content) result piece.now }
        ensures cause { HasCause self.old.calls.faults self.new.calls.faults result }

        ensures fails { IsErr result
            ↔ (NextFails self.old.calls ⊎ ((0 < length piece.now) × (self.old.room ≤ length self.old.content))) }
        ensures takes { IfOk result (λ n. n ≡ min (min self.old.largest (length piece.now)) (self.old.room - length self.old.content)) }
        ensures after { MatchResult result
            (λ n. self.new ≡ record self.old { content = self.old.content ++ take n piece.now; calls = served self.old.calls })
            (λ _. self.new ≡ record self.old { calls = failed self.old.calls }) }
    {
        let count = self
            .largest
            .min(piece.len())
            .min(self.room - self.bytes.len());
        if self.calls.begin() || (count == 0 && !piece.is_empty()) {
            return Err(self.calls.fail());
        }
        self.bytes.extend_from_slice(&piece[..count]).unwrap();
        Ok(count)
    }
}

/// A sink that takes everything and keeps the number of bytes alone. Its writes never fail.
#[derive(Drop)]
pub struct TallySink {
    bytes: u64,
}

impl Model for TallySink {
    ghost use Rattle.std.specs.Prelude.{ℕ};

    ghost Value = { ℕ };

    ghost view = { λ s. s.bytes };
}

impl TallySink {
    /// The sink that has taken nothing yet.
    pub fn new() -> TallySink
        ensures { result ≡ 0 }
    {
        TallySink { bytes: 0 }
    }

    /// How many bytes the sink has taken; the number stands still at the greatest `u64`.
    pub fn bytes(&self) -> u64
        ensures { result ≡ self.now }
    {
        self.bytes
    }
}

impl Sink for TallySink {
    ghost content = { λ _. None };

    ghost faults = { λ _. 0 };

    /// Takes the whole piece.
    fn write(&mut self, piece: &[u8]) -> Result<usize, Failed>
        ensures bound { IfOk result (λ n. n ≤ length piece.now) }
        ensures some { IfOk result (λ n. 0 < length piece.now → 0 < n) }
        ensures bytes { WriteAppends None None result piece.now }
        ensures cause { HasCause 0 0 result }

        ensures takes { result ≡ Ok (length piece.now) }
        ensures after { self.new ≡ min (self.old + length piece.now) (2 ^ 64 - 1) }
    {
        self.bytes = self.bytes.saturating_add(piece.len() as u64);
        Ok(piece.len())
    }
}
