//! A sink in memory.

ghost use Rattle.std.specs.Prelude.{◌≡◌, ◌↔◌, ◌⊎◌, ◌-◌, ◌<◌, ◌≤◌, [], ◌++◌, Some, length, take, min, IfOk, IsErr, OnErr, Contains, is_err, if◌then◌else◌};
ghost use Rattle.armcaps_io.specs.Causes.{raised};

use crate::count::raise;
use crate::sink::Sink;
use crate::source::Failed;
use std::alloc::{AllocError, Global};
use std::marker::Model;

/// A sink that keeps its bytes in memory, and whose calls fail where it was told that they do.
#[derive(Debug, Drop)]
pub struct MemSink {
    held: Vec<u8>,
    room: usize,
    piece: usize,
    fails: Vec<u64>,
    calls: u64,
    faults: u64,
}

impl Model for MemSink {
    ghost use Rattle.std.specs.Prelude.{◌<◌, ◌≤◌, vec_len, vec_capacity};
    ghost use Rattle.armcaps_io.specs.Memory.{SinkState};

    ghost Value = { SinkState };

    ghost view = { λ s. record {
      held = s.held.items;
      room = s.room;
      piece = s.piece;
      fails = s.fails.items;
      calls = s.calls;
      faults = s.faults;
    } };

    ghost invariant = { λ s. (vec_len s.held ≤ s.room) × (s.room ≤ vec_capacity s.held) × (0 < s.piece) };
}

impl MemSink {
    /// An empty sink with room for `room` bytes that takes at most `piece` of them in one call. The
    /// calls whose numbers, from 1 on, stand in `fails` fail, and so do those that bring a byte
    /// when the sink is full. A number or a count that has reached 2^64 - 1 stays there. All memory
    /// is taken here.
    pub fn new(
        alloc: Global,
        room: usize,
        piece: usize,
        fails: Vec<u64>,
    ) -> Result<MemSink, AllocError>
        requires { 0 < piece }
        ensures held { IfOk result (λ s. s.held ≡ []) }
        ensures room { IfOk result (λ s. s.room ≡ room) }
        ensures piece { IfOk result (λ s. s.piece ≡ piece) }
        ensures fails { IfOk result (λ s. s.fails ≡ fails.items) }
        ensures fresh { IfOk result (λ s. (s.calls ≡ 0) × (s.faults ≡ 0)) }
    {
        Ok(MemSink {
            held: Vec::with_capacity(alloc, room)?,
            room,
            piece,
            fails,
            calls: 0,
            faults: 0,
        })
    }

    /// The bytes that it has taken.
    pub fn bytes(&self) -> &[u8]
        ensures { result.now ≡ self.now.held }
    {
        &self.held
    }
}

impl Sink for MemSink {
    ghost held = { λ s. Some s.held };

    ghost faults = { λ s. s.faults };

    fn write(&mut self, piece: &[u8]) -> Result<usize, Failed>
        ensures call { self.new.calls ≡ raised self.old.calls }
        ensures fails { IsErr result ↔
            (Contains self.old.fails self.new.calls ⊎
            ((0 < length piece.now) × (length self.old.held ≡ self.old.room))) }
        ensures count { IfOk result (λ n.
            n ≡ min self.old.piece (min (length piece.now) (self.old.room - length self.old.held))) }
        ensures some { IfOk result (λ n. 0 < length piece.now → 0 < n) }
        ensures appended { IfOk result (λ n. self.new.held ≡ self.old.held ++ take n piece.now) }
        ensures kept { OnErr result (self.new.held ≡ self.old.held) }
        ensures never_falls { self.old.faults ≤ self.new.faults }
        ensures faults { self.new.faults ≡ (if is_err result then raised self.old.faults else self.old.faults) }
        ensures settings { (self.new.room ≡ self.old.room) × (self.new.piece ≡ self.old.piece) ×
            (self.new.fails ≡ self.old.fails) }
    {
        self.calls = raise(self.calls);
        let room_left = self.room - self.held.len();
        if self.fails.contains(&self.calls) || (!piece.is_empty() && room_left == 0) {
            self.faults = raise(self.faults);
            return Err(Failed);
        }
        let count = self.piece.min(piece.len()).min(room_left);
        self.held.extend_from_slice(&piece[..count]).unwrap();
        Ok(count)
    }
}
