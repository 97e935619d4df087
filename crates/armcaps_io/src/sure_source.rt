//! A source in memory that never fails.

ghost use Rattle.std.specs.Prelude.{◌≡◌, ◌<◌, ◌≤◌, [], ◌++◌, Some, length, take, min, IfOk, IsOk};

use crate::source::{Failed, Source};
use std::marker::Model;

/// A source over bytes in memory that never fails.
#[derive(Debug, Clone, Drop)]
pub struct SureSource {
    bytes: Vec<u8>,
    place: usize,
    piece: usize,
}

impl Model for SureSource {
    ghost use Rattle.std.specs.Prelude.{◌<◌, ◌≤◌, drop, vec_len};
    ghost use Rattle.armcaps_io.specs.Memory.{SureState};

    ghost Value = { SureState };

    ghost view = { λ s. record { left = drop s.place s.bytes.items; piece = s.piece } };

    ghost invariant = { λ s. (s.place ≤ vec_len s.bytes) × (0 < s.piece) };
}

impl SureSource {
    /// A source of these bytes that gives at most `piece` of them in one call.
    pub fn new(bytes: Vec<u8>, piece: usize) -> SureSource
        requires { 0 < piece }
        ensures bytes { result.left ≡ bytes.items }
        ensures piece { result.piece ≡ piece }
    {
        SureSource {
            bytes,
            place: 0,
            piece,
        }
    }
}

impl Source for SureSource {
    ghost left = { λ s. Some s.left };

    ghost faults = { λ _. 0 };

    fn read(&mut self, buf: &mut [u8]) -> Result<usize, Failed>
        ensures sure { IsOk result }
        ensures count { IfOk result (λ n. n ≡ min self.old.piece (min (length buf.new) (length self.old.left))) }
        ensures given { IfOk result (λ n. self.old.left ≡ take n buf.new ++ self.new.left) }
        ensures end { IfOk result (λ n. n ≡ 0 → 0 < length buf.new → self.new.left ≡ []) }
        ensures piece { self.new.piece ≡ self.old.piece }
    {
        let count = self.piece.min(buf.len()).min(self.bytes.len() - self.place);
        let end = self.place + count;
        buf[..count].copy_from_slice(&self.bytes[self.place..end]);
        self.place = end;
        Ok(count)
    }
}
