//! Bytes from a reader of std.

ghost use Rattle.std.specs.Prelude.{◌≡◌, ◌≤◌, None, length, IfOk, is_err, if◌then◌else◌};
ghost use Rattle.std.specs.Io.KnownBytes.{ReadConsumes};
ghost use Rattle.armcaps_io.specs.Causes.{raised};

use crate::counted::Counted;
use crate::source::{Failed, Source};
use std::io::{self, Read};

/// A source over a reader of std. It tells nothing of the bytes: what a real stream gives is known
/// to nobody before it comes. Its `read` gives what one read of the reader gave.
pub type RealSource<R> = Counted<R>;

impl<R: Read> Source for Counted<R> {
    ghost left = { λ _. None };

    ghost faults = { λ s. s.faults };

    fn read(&mut self, buf: &mut [u8]) -> Result<usize, Failed>
        ensures within { IfOk result (λ n. n ≤ length buf.new) }
        ensures bytes { ReadConsumes (R.remaining self.old.inner) (R.remaining self.new.inner) result buf.new }
        ensures never_falls { self.old.faults ≤ self.new.faults }
        ensures faults { self.new.faults ≡ (if is_err result then raised self.old.faults else self.old.faults) }
    {
        let answer = self.inner.read(buf);
        self.count(answer)
    }
}

#[cfg(test)]
mod tests {
    use super::*;
    use std::io::ErrorKind;

    // Gives one byte at its first call, fails at the second, and has ended from then on.
    #[derive(Drop)]
    struct Faulty {
        calls: u8,
    }

    impl Read for Faulty {
        fn read(&mut self, buf: &mut [u8]) -> io::Result<usize> {
            if self.calls > 1 {
                return Ok(0);
            }
            self.calls += 1;
            match buf {
                [first, ..] if self.calls == 1 => {
                    *first = 7;
                    Ok(1)
                }
                _ => Err(io::Error::from(ErrorKind::Other)),
            }
        }
    }

    #[test]
    fn passes_on_what_the_reader_answers(rt: HostRuntime) {
        let mut source = RealSource::new(Faulty { calls: 0 });
        let mut buf = [0; 4];
        assert_eq!(rt; source.read(&mut buf), Ok(1));
        assert_eq!(rt; buf, [7, 0, 0, 0]);
        assert_eq!(rt; source.read(&mut buf), Err(Failed));
        assert_eq!(rt; source.read(&mut buf), Ok(0));
        assert_eq!(rt; source.faults, 1);
    }
}
