//! Writing a whole piece.

ghost use Rattle.std.specs.Prelude.{◌≤◌, OnOk, OnErr};
ghost use Rattle.armcaps_io.specs.Causes.{Rose};
ghost use Rattle.armcaps_io.specs.Streams.{Appends, AppendsPrefix};

use crate::sink::Sink;
use crate::source::Failed;
use std::error::Error;
use std::fmt;

/// A sink failed before it had taken all of a piece.
#[derive(Clone, Copy, Debug, PartialEq, Eq)]
pub struct WriteFault;

impl fmt::Display for WriteFault {
    fn fmt<W: fmt::Write>(&self, f: &mut fmt::Formatter<W>) -> fmt::Result {
        f.write_str("write fault")
    }
}

impl Error for WriteFault {}

impl From<Failed> for WriteFault {
    fn from(_failed: Failed) -> WriteFault {
        WriteFault
    }
}

/// Writes all of `piece`, in as many calls as the sink needs. It takes no memory.
pub fn write_whole<O: Sink>(sink: &mut O, piece: &[u8]) -> Result<(), WriteFault>
    ensures whole { OnOk result (Appends (O.held sink.old) (O.held sink.new) piece.now) }
    ensures prefix { OnErr result (AppendsPrefix (O.held sink.old) (O.held sink.new) piece.now) }
    ensures never_falls { O.faults sink.old ≤ O.faults sink.new }
    ensures cause { OnErr result (Rose (O.faults sink.old) (O.faults sink.new)) }
{
    let mut written = 0;
    while written < piece.len() {
        written += sink.write(&piece[written..])?;
    }
    Ok(())
}

#[cfg(test)]
mod tests {
    use super::*;
    use crate::mem_sink::MemSink;
    use std::test::Fail;

    #[test]
    fn writes_all_or_a_first_part(rt: HostRuntime) -> Result<(), Fail> {
        let mut sink = MemSink::new(rt.alloc(), 4, 3, vec![in rt.alloc()]?)?;
        assert_eq!(rt; write_whole(&mut sink, b"abcd"), Ok(()));
        assert_eq!(rt; sink.bytes(), b"abcd".as_slice());
        let mut sink = MemSink::new(rt.alloc(), 3, 3, vec![in rt.alloc()]?)?;
        assert_eq!(rt; write_whole(&mut sink, b"abcd"), Err(WriteFault));
        assert_eq!(rt; sink.bytes(), b"abc".as_slice());
        let report =
            b"armcaps report 1\ncore 0 boot\nreg id_aa64isar0_el1 0x0000000000011120\nend\n";
        let mut sink = MemSink::new(rt.alloc(), 4096, 16, vec![in rt.alloc(); 5]?)?;
        assert_eq!(rt; write_whole(&mut sink, report), Err(WriteFault));
        assert_eq!(rt; sink.bytes(), &report[..64]);
        Ok(())
    }
}
