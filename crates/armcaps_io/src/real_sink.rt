//! Bytes to a writer of std.

ghost use Rattle.std.specs.Prelude.{◌≡◌, ◌<◌, ◌≤◌, ◌⊎◌, None, length, take, IfOk, OnOk, OnErr};
ghost use Rattle.std.specs.Io.{WritesAtMost};
ghost use Rattle.std.specs.Io.KnownBytes.{WriteAppends};
ghost use Rattle.armcaps_io.specs.Causes.{raised};
ghost use Rattle.armcaps_io.specs.Streams.{Appends, AppendsPrefix};

use crate::counted::Counted;
use crate::sink::Sink;
use crate::source::Failed;
use std::io::{self, ErrorKind, Write};

/// A sink over a writer of std. It tells nothing of the bytes: after a failure, real streams may
/// have taken some. After each write it flushes the writer, so that no byte waits in a buffer.
pub type RealSink<W> = Counted<W>;

impl<W: Write> Sink for Counted<W> {
    ghost held = { λ _. None };

    ghost faults = { λ s. s.faults };

    fn write(&mut self, piece: &[u8]) -> Result<usize, Failed>
        ensures within { IfOk result (λ n. n ≤ length piece.now) }
        ensures some { IfOk result (λ n. 0 < length piece.now → 0 < n) }

        // What the writer itself got: after a fault of the flush, it has taken a part.
        ensures bytes { IfOk result (λ n.
            Appends (W.contents self.old.inner) (W.contents self.new.inner) (take n piece.now)) }
        ensures prefix { OnErr result
            (AppendsPrefix (W.contents self.old.inner) (W.contents self.new.inner) piece.now) }

        // The write and the flush each count as a fault where they fail.
        ensures never_falls { self.old.faults ≤ self.new.faults }
        ensures quiet { OnOk result (self.new.faults ≡ self.old.faults) }
        ensures faults { OnErr result ((self.new.faults ≡ raised self.old.faults) ⊎
            (self.new.faults ≡ raised (raised self.old.faults))) }
    {
        let written = write_some(&mut self.inner, piece);
        let flushed = self.inner.flush();
        let written = self.count(written);
        self.count(flushed)?;
        written
    }
}

// One write of the first bytes of `piece`. That the writer takes nothing of a piece is an error.
fn write_some<W: Write>(writer: &mut W, piece: &[u8]) -> io::Result<usize>
    ensures within { WritesAtMost result piece.now }
    ensures some { IfOk result (λ n. 0 < length piece.now → 0 < n) }
    ensures bytes { WriteAppends (W.contents writer.old) (W.contents writer.new) result piece.now }
{
    match writer.write(piece) {
        Ok(0) if !piece.is_empty() => Err(io::Error::from(ErrorKind::WriteZero)),
        written => written,
    }
}

#[cfg(test)]
mod tests {
    use super::*;
    use std::test::Fail;

    // Keeps what is written until the flush, at most 64 bytes at once, and lists its calls.
    #[derive(Drop)]
    struct Buffered {
        waiting: Vec<u8>,
        out: Vec<u8>,
        calls: Vec<u8>,
    }

    impl Write for Buffered {
        fn write(&mut self, piece: &[u8]) -> io::Result<usize> {
            self.calls.push(b'w')?;
            let count = piece.len().min(64);
            self.waiting.extend_from_slice(&piece[..count])?;
            Ok(count)
        }

        fn flush(&mut self) -> io::Result<()> {
            self.calls.push(b'f')?;
            self.out.extend_from_slice(&self.waiting)?;
            self.waiting.clear();
            Ok(())
        }
    }

    #[test]
    fn writes_once_and_then_flushes(rt: HostRuntime) -> Result<(), Fail> {
        let mut sink = RealSink::new(Buffered {
            waiting: Vec::new(rt.alloc()),
            out: Vec::new(rt.alloc()),
            calls: Vec::new(rt.alloc()),
        });
        let piece = [b'x'; 100];
        assert_eq!(rt; sink.write(&piece), Ok(64));
        assert_eq!(rt; sink.write(&piece[64..]), Ok(36));
        assert_eq!(rt; sink.inner.calls.as_slice(), b"wfwf".as_slice());
        assert_eq!(rt; sink.inner.waiting.as_slice(), b"".as_slice());
        assert_eq!(rt; sink.inner.out.as_slice(), piece.as_slice());
        Ok(())
    }

    // Takes so many bytes at most, or fails; its flush may fail too.
    #[derive(Drop)]
    struct Answering {
        takes: Option<usize>,
        flushes: bool,
    }

    impl Write for Answering {
        fn write(&mut self, piece: &[u8]) -> io::Result<usize> {
            let most = self.takes.ok_or(io::Error::from(ErrorKind::Other))?;
            Ok(piece.len().min(most))
        }

        fn flush(&mut self) -> io::Result<()> {
            if self.flushes {
                Ok(())
            } else {
                Err(io::Error::from(ErrorKind::Other))
            }
        }
    }

    #[test]
    fn counts_each_answer_that_fails(rt: HostRuntime) {
        let cases = [
            (Some(2), true, Ok(2), 0),
            (Some(0), true, Err(Failed), 1),
            (None, true, Err(Failed), 1),
            (Some(2), false, Err(Failed), 1),
            (Some(0), false, Err(Failed), 2),
            (None, false, Err(Failed), 2),
        ];
        for (takes, flushes, answer, faults) in cases {
            let mut sink = RealSink::new(Answering { takes, flushes });
            assert_eq!(rt; sink.write(b"abc"), answer, "at {takes:?} {flushes}");
            assert_eq!(rt; sink.faults, faults, "at {takes:?} {flushes}");
        }
        let mut sink = RealSink::new(Answering {
            takes: Some(2),
            flushes: true,
        });
        assert_eq!(rt; sink.write(b""), Ok(0));
    }
}
