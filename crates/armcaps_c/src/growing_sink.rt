//! A sink that grows.

ghost use Rattle.std.specs.Prelude.{◌≡◌, ◌^◌, ◌-◌, [], MatchOption, Some, false, if◌then◌else◌, true};

use armcaps_io::{Failed, Sink};
use std::alloc::Global;

/// Keeps the bytes that it is given, as long as there is memory for them. Contracts see its fault as a count that
/// cannot rise any more.
#[derive(Drop)]
pub struct GrowingSink {
    bytes: Vec<u8>,
    refused: bool,
}

impl GrowingSink {
    /// An empty sink.
    pub fn new(alloc: Global) -> GrowingSink
        ensures bytes { result.bytes.items ≡ [] }
        ensures refused { result.refused ≡ false }
    {
        GrowingSink {
            bytes: Vec::new(alloc),
            refused: false,
        }
    }

    /// The bytes that it has taken; `None` where there was no memory for some.
    pub fn into_bytes(self) -> Option<Vec<u8>>
        ensures { MatchOption result (self.refused ≡ true)
            (λ bytes. (bytes.items ≡ self.bytes.items) × (self.refused ≡ false)) }
    {
        if self.refused { None } else { Some(self.bytes) }
    }
}

impl Sink for GrowingSink {
    ghost held = { λ sink. Some sink.bytes.items };

    ghost faults = { λ sink. if sink.refused then 2 ^ 64 - 1 else 0 };

    fn write(&mut self, piece: &[u8]) -> Result<usize, Failed> {
        match self.bytes.extend_from_slice(piece) {
            Ok(()) => Ok(piece.len()),
            Err(_) => {
                self.refused = true;
                Err(Failed)
            }
        }
    }
}
