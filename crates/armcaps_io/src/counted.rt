//! A reader or a writer of std, with a count of what failed.

ghost use Rattle.std.specs.Prelude.{◌≡◌, ◌≤◌, is_err, if◌then◌else◌};
ghost use Rattle.std.specs.Result.{result_ok};
ghost use Rattle.armcaps_io.specs.Causes.{raised};

use crate::count::raise;
use crate::source::Failed;
use std::io;
use std::marker::Model;

/// A reader or a writer of std, and the count of its answers that were errors. As a source it is a
/// `RealSource`, as a sink a `RealSink`; as either it tells nothing of the bytes.
#[derive(Debug, Drop)]
pub struct Counted<T> {
    pub(crate) inner: T,
    pub(crate) faults: u64,
}

impl<T> Model for Counted<T> {
    ghost use Rattle.armcaps_io.specs.Counted.{CountedState};

    ghost Value = { CountedState T };

    ghost view = { λ counted. record { inner = counted.inner; faults = counted.faults } };
}

impl<T> Counted<T> {
    /// This reader or writer, with no error so far.
    pub fn new(inner: T) -> Counted<T>
        ensures inner { result.inner ≡ inner }
        ensures fresh { result.faults ≡ 0 }
    {
        Counted { inner, faults: 0 }
    }

    // The same answer; an error is counted.
    pub(crate) fn count<V: Copy>(&mut self, answer: io::Result<V>) -> Result<V, Failed>
        ensures answer { result_ok result ≡ result_ok answer }
        ensures inner { self.new.inner ≡ self.old.inner }
        ensures never_falls { self.old.faults ≤ self.new.faults }
        ensures faults { self.new.faults ≡ (if is_err result then raised self.old.faults else self.old.faults) }
    {
        match answer {
            Ok(value) => Ok(value),
            Err(_) => {
                self.faults = raise(self.faults);
                Err(Failed)
            }
        }
    }
}
