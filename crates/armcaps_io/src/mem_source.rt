//! A source in memory whose calls fail on demand.

ghost use Rattle.std.specs.Prelude.{◌≡◌, ◌↔◌, ◌<◌, ◌≤◌, [], ◌++◌, Some, length, take, min, IfOk, IsErr, OnErr, Contains, is_err, if◌then◌else◌};
ghost use Rattle.armcaps_io.specs.Causes.{raised};

use crate::count::raise;
use crate::source::{Failed, Source};
use crate::sure_source::SureSource;
use std::marker::Model;

/// A source over bytes in memory whose calls fail where it was told that they do.
#[derive(Debug, Clone, Drop)]
pub struct MemSource {
    supply: SureSource,
    fails: Vec<u64>,
    calls: u64,
    faults: u64,
}

impl Model for MemSource {
    ghost use Rattle.armcaps_io.specs.Memory.{SourceState};

    ghost Value = { SourceState };

    ghost view = { λ s. record {
      left = s.supply.left;
      piece = s.supply.piece;
      fails = s.fails.items;
      calls = s.calls;
      faults = s.faults;
    } };
}

impl MemSource {
    /// A source of these bytes that gives at most `piece` of them in one call. The calls whose
    /// numbers, from 1 on, stand in `fails` fail. A number or a count that has reached 2^64 - 1
    /// stays there.
    pub fn new(bytes: Vec<u8>, piece: usize, fails: Vec<u64>) -> MemSource
        requires { 0 < piece }
        ensures bytes { result.left ≡ bytes.items }
        ensures piece { result.piece ≡ piece }
        ensures fails { result.fails ≡ fails.items }
        ensures fresh { (result.calls ≡ 0) × (result.faults ≡ 0) }
    {
        MemSource {
            supply: SureSource::new(bytes, piece),
            fails,
            calls: 0,
            faults: 0,
        }
    }
}

impl Source for MemSource {
    ghost left = { λ s. Some s.left };

    ghost faults = { λ s. s.faults };

    fn read(&mut self, buf: &mut [u8]) -> Result<usize, Failed>
        ensures call { self.new.calls ≡ raised self.old.calls }
        ensures fails { IsErr result ↔ Contains self.old.fails self.new.calls }
        ensures count { IfOk result (λ n. n ≡ min self.old.piece (min (length buf.new) (length self.old.left))) }
        ensures given { IfOk result (λ n. self.old.left ≡ take n buf.new ++ self.new.left) }
        ensures end { IfOk result (λ n. n ≡ 0 → 0 < length buf.new → self.new.left ≡ []) }
        ensures kept { OnErr result (self.new.left ≡ self.old.left) }
        ensures never_falls { self.old.faults ≤ self.new.faults }
        ensures faults { self.new.faults ≡ (if is_err result then raised self.old.faults else self.old.faults) }
        ensures settings { (self.new.piece ≡ self.old.piece) × (self.new.fails ≡ self.old.fails) }
    {
        self.calls = raise(self.calls);
        if self.fails.contains(&self.calls) {
            self.faults = raise(self.faults);
            return Err(Failed);
        }
        self.supply.read(buf)
    }
}
