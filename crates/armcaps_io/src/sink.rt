//! Where bytes go.

ghost use Rattle.std.specs.Prelude.{ℕ, ◌<◌, ◌≤◌, Option, List, length, take, IfOk, OnErr};
ghost use Rattle.armcaps_io.specs.Causes.{Rose};
ghost use Rattle.armcaps_io.specs.Streams.{Keeps, Appends};

use crate::source::Failed;

/// Takes bytes to the outside, a piece in each call.
pub trait Sink {
    // The bytes that it has taken so far, where they are told.
    ghost held: { Self → Option (List ℕ) };

    // How often a call has failed.
    ghost faults: { Self → ℕ };

    /// Takes the first bytes of `piece`, at least one where there is one, and answers how many.
    /// After `Failed` it has taken none of them.
    fn write(&mut self, piece: &[u8]) -> Result<usize, Failed>
        ensures within { IfOk result (λ n. n ≤ length piece.now) }
        ensures some { IfOk result (λ n. 0 < length piece.now → 0 < n) }
        ensures appended { IfOk result (λ n. Appends (held self.old) (held self.new) (take n piece.now)) }
        ensures kept { OnErr result (Keeps (held self.old) (held self.new)) }
        ensures never_falls { faults self.old ≤ faults self.new }
        ensures cause { OnErr result (Rose (faults self.old) (faults self.new)) };
}
