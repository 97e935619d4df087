//! Writing a text piece after piece, through one buffer.

ghost use Rattle.std.specs.Prelude.{◌≡◌, ◌+◌, ◌%◌, ◌<◌, ◌≤◌, ℕ, OnErr, OnOk, length, slice_index};
ghost use Rattle.armcaps_io.specs.Causes.{Rose};
ghost use Rattle.armcaps_io.specs.Pieces.{bytes_from};
ghost use Rattle.armcaps_io.specs.Streams.{Appends, AppendsPrefix};

use crate::sink::Sink;
use crate::writing::{WriteFault, write_whole};

/// A text that is known byte by byte and is made piece by piece, so that it never stands in memory as a whole.
pub trait Pieces {
    // How many bytes the text has.
    ghost size: { Self → ℕ };

    // The byte at a place of the text.
    ghost byte: { Self → ℕ → ℕ };

    /// How many bytes the text has.
    fn size(&self) -> usize
        ensures { result ≡ size self.now };

    /// Fills the buffer with the text's bytes from a place on. Each piece begins at a multiple of 4096 and has 4096
    /// bytes, but the last one, which has the bytes that are left.
    fn fill(&self, from: usize, buffer: &mut [u8])
        requires begins { from % 4096 ≡ 0 }
        requires within { from + length buffer.old ≤ size self.now }
        requires short { length buffer.old ≤ 4096 }
        requires whole { from + length buffer.old < size self.now → length buffer.old ≡ 4096 }
        ensures { (j : ℕ) → j < length buffer.new → slice_index buffer.new j ≡ byte self.now (from + j) };
}

/// Writes all of the text, in pieces of at most 4096 bytes. It takes no memory.
///
/// After `WriteFault` the sink has got a first part of it.
pub fn send_all<T: Pieces, O: Sink>(text: &T, sink: &mut O) -> Result<(), WriteFault>
    ensures whole { OnOk result
        (Appends (O.held sink.old) (O.held sink.new) (bytes_from (T.byte text.now) 0 (T.size text.now))) }
    ensures prefix { OnErr result
        (AppendsPrefix (O.held sink.old) (O.held sink.new) (bytes_from (T.byte text.now) 0 (T.size text.now))) }
    ensures never_falls { O.faults sink.old ≤ O.faults sink.new }
    ensures cause { OnErr result (Rose (O.faults sink.old) (O.faults sink.new)) }
{
    let mut buffer = [0u8; 4096];
    let size = text.size();
    let mut place = 0;
    while place < size {
        let count = (size - place).min(4096);
        send_piece(text, place, &mut buffer[..count], sink)?;
        place += count;
    }
    Ok(())
}

// Writes one piece of the text, as many bytes as the buffer has, from a place on.
fn send_piece<T: Pieces, O: Sink>(
    text: &T,
    from: usize,
    buffer: &mut [u8],
    sink: &mut O,
) -> Result<(), WriteFault>
    requires begins { from % 4096 ≡ 0 }
    requires within { from + length buffer.old ≤ T.size text.now }
    requires short { length buffer.old ≤ 4096 }
    requires whole { from + length buffer.old < T.size text.now → length buffer.old ≡ 4096 }
    ensures whole { OnOk result
        (Appends (O.held sink.old) (O.held sink.new) (bytes_from (T.byte text.now) from (length buffer.old))) }
    ensures prefix { OnErr result
        (AppendsPrefix (O.held sink.old) (O.held sink.new) (bytes_from (T.byte text.now) from (length buffer.old))) }
    ensures never_falls { O.faults sink.old ≤ O.faults sink.new }
    ensures cause { OnErr result (Rose (O.faults sink.old) (O.faults sink.new)) }
{
    text.fill(from, buffer);
    write_whole(sink, buffer)
}

#[cfg(test)]
mod tests {
    use super::*;
    use crate::mem_sink::MemSink;
    use std::test::Fail;

    // A text of which each byte tells its place.
    #[derive(Drop)]
    struct Ruler {
        size: usize,
    }

    impl Pieces for Ruler {
        ghost use Rattle.std.specs.Prelude.{◌%◌};

        ghost size = { λ ruler. ruler.size };

        ghost byte = { λ _ place. place % 251 };

        fn size(&self) -> usize {
            self.size
        }

        fn fill(&self, from: usize, buffer: &mut [u8]) {
            for (index, byte) in buffer.iter_mut().enumerate() {
                *byte = ((from + index) % 251) as u8;
            }
        }
    }

    #[test]
    fn sends_all_or_a_first_part(rt: HostRuntime) -> Result<(), Fail> {
        for (size, room) in [
            (0, 0),
            (1, 1),
            (4096, 4096),
            (4097, 4097),
            (8192, 8191),
            (8195, 9000),
            (9000, 4096),
        ] {
            let mut sink = MemSink::new(rt.alloc(), room, 1000, vec![in rt.alloc()]?)?;
            let sent = send_all(&Ruler { size }, &mut sink);
            let bytes = sink.bytes();
            assert_eq!(rt; sent.is_ok(), size <= room, "of {size}");
            assert_eq!(rt; bytes.len(), size.min(room), "of {size}");
            for (place, byte) in bytes.iter().enumerate() {
                assert_eq!(rt; *byte as usize, place % 251, "at {place} of {size}");
            }
        }
        Ok(())
    }
}
