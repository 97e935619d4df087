//! Where bytes come from.

ghost use Rattle.std.specs.Prelude.{◌≡◌, ℕ, ◌<◌, ◌≤◌, Option, List, length, take, IfOk, OnErr};
ghost use Rattle.armcaps_io.specs.Causes.{Rose};
ghost use Rattle.armcaps_io.specs.Streams.{Keeps, Consumes, IsAtEnd};

use std::error::Error;
use std::fmt;

/// The answer of a call of a source or a sink that failed.
#[derive(Clone, Copy, Debug, PartialEq, Eq)]
pub struct Failed;

impl fmt::Display for Failed {
    fn fmt<W: fmt::Write>(&self, f: &mut fmt::Formatter<W>) -> fmt::Result {
        f.write_str("a call failed")
    }
}

impl Error for Failed {}

/// Gives bytes from the outside, a piece in each call.
pub trait Source {
    // The bytes that it will still give, where they are told.
    ghost left: { Self → Option (List ℕ) };

    // How often a call has failed.
    ghost faults: { Self → ℕ };

    /// Reads into the first bytes of `buf`, and answers how many. 0 into a buffer that isn't empty
    /// says that the input has ended. After `Failed` no byte is lost, and the call may be repeated.
    fn read(&mut self, buf: &mut [u8]) -> Result<usize, Failed>
        ensures within { IfOk result (λ n. n ≤ length buf.new) }
        ensures given { IfOk result (λ n. Consumes (left self.old) (left self.new) (take n buf.new)) }
        ensures end { IfOk result (λ n. n ≡ 0 → 0 < length buf.new → IsAtEnd (left self.new)) }
        ensures kept { OnErr result (Keeps (left self.old) (left self.new)) }
        ensures never_falls { faults self.old ≤ faults self.new }
        ensures cause { OnErr result (Rose (faults self.old) (faults self.new)) };
}
