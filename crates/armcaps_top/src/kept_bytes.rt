//! A sink in memory.

ghost use Rattle.std.specs.Prelude.{Some};

use armcaps_io::{Failed, Sink};

/// A sink that keeps its bytes in memory, and fails only where there is no more of it.
#[derive(Drop)]
pub struct KeptBytes {
    pub bytes: Vec<u8>,
    pub faults: u64,
}

impl Sink for KeptBytes {
    ghost held = { λ s. Some s.bytes.items };

    ghost faults = { λ s. s.faults };

    fn write(&mut self, piece: &[u8]) -> Result<usize, Failed> {
        match self.bytes.extend_from_slice(piece) {
            Ok(()) => Ok(piece.len()),
            Err(_) => {
                self.faults = self.faults.saturating_add(1);
                Err(Failed)
            }
        }
    }
}
