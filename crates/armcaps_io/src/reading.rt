//! Reading to the end, or to a limit.

ghost use Rattle.std.specs.Prelude.{◌≡◌, ◌⊎◌, ◌↔◌, ℕ, ◌+◌, ◌^◌, ◌<◌, ◌≤◌, Ok, true, false, length, take, drop, IfOk, OnOk, OnErr, IsErrOf, vec_len};
ghost use Rattle.std.specs.Io.{StartsWith};
ghost use Rattle.armcaps_io.specs.Causes.{Rose};
ghost use Rattle.armcaps_io.specs.Streams.{Keeps, Consumes, IsAtEnd, GivesAll, HasMoreThan, GivesCount, GivesAtMost, Moves};

use crate::source::{Failed, Source};
use std::alloc::{AllocError, Global};
use std::error::Error;
use std::fmt;

/// Why a source was not read to its end.
#[derive(Clone, Copy, Debug, PartialEq, Eq)]
pub enum InFault {
    /// A call of the source failed.
    Read,

    /// The source gave more bytes than the limit.
    TooLong { limit: usize },

    /// There was no memory for the bytes.
    Memory,
}

impl fmt::Display for InFault {
    fn fmt<W: fmt::Write>(&self, f: &mut fmt::Formatter<W>) -> fmt::Result {
        match self {
            InFault::Read => f.write_str("read fault"),
            InFault::TooLong { limit } => write!(f, "longer than {limit} bytes"),
            InFault::Memory => f.write_str("want of memory"),
        }
    }
}

impl Error for InFault {}

impl From<Failed> for InFault {
    ghost use Rattle.std.specs.Prelude.{◌≡◌};
    ghost use Rattle.armcaps_io.specs.declared.reading.InFault.TheVariants.{Read};

    ghost from_gives = { λ _ fault. fault ≡ Read };

    fn from(_failed: Failed) -> InFault {
        InFault::Read
    }
}

impl From<AllocError> for InFault {
    ghost use Rattle.std.specs.Prelude.{◌≡◌};
    ghost use Rattle.armcaps_io.specs.declared.reading.InFault.TheVariants.{Memory};

    ghost from_gives = { λ _ fault. fault ≡ Memory };

    fn from(_error: AllocError) -> InFault {
        InFault::Memory
    }
}

// The most bytes that are asked for in one call.
const PIECE: usize = 64 * 1024;

/// Reads all that the source has left, if that is at most `limit` bytes. Where it has more, one
/// byte more than the limit is read. After a refusal the bytes that the source gave are lost.
pub fn read_to_limit<S: Source>(
    alloc: Global,
    source: &mut S,
    limit: usize,
) -> Result<Vec<u8>, InFault>
    requires { limit < 2 ^ 32 }

    // All bytes came, and they are within the limit.
    ensures whole { IfOk result (λ bytes. GivesAll (S.left source.old) (S.left source.new) bytes.items) }
    ensures within { IfOk result (λ bytes. vec_len bytes ≤ limit) }

    // The source had and gave more than the limit at this refusal, and gave no more at the others.
    ensures limit { (n : ℕ) → IsErrOf result (InFault.TooLong n) → n ≡ limit }
    ensures longer { (n : ℕ) → IsErrOf result (InFault.TooLong n) → HasMoreThan (S.left source.old) limit }
    ensures one_more { (n : ℕ) → IsErrOf result (InFault.TooLong n) →
        GivesCount (S.left source.old) (S.left source.new) (limit + 1) }
    ensures short { IsErrOf result InFault.Read ⊎ IsErrOf result InFault.Memory →
        GivesAtMost (S.left source.old) (S.left source.new) limit }

    // The source failed in this call.
    ensures cause { IsErrOf result InFault.Read → Rose (S.faults source.old) (S.faults source.new) }
    ensures never_falls { S.faults source.old ≤ S.faults source.new }
{
    let mut bytes = Vec::new(alloc);
    if read_on(source, &mut bytes, limit + 1)? {
        Ok(bytes)
    } else {
        Err(InFault::TooLong { limit })
    }
}

/// Appends to `into` what the source gives, until the source has ended, which answers true, or
/// `into` has `limit` bytes, which answers false. After a refusal too, what the source gave stands
/// in `into`. `TooLong` is no answer of it.
pub fn read_on<S: Source>(source: &mut S, into: &mut Vec<u8>, limit: usize) -> Result<bool, InFault>
    requires within { vec_len into.old ≤ limit }
    requires small { limit ≤ 2 ^ 32 }

    // Whatever the answer, `into` grew by what the source gave, and by nothing else.
    ensures moved { Moves (S.left source.old) (S.left source.new) into.old.items into.new.items }
    ensures within { vec_len into.new ≤ limit }

    // The end was read before the limit, or `into` is full.
    ensures ended { result ≡ Ok true → IsAtEnd (S.left source.new) }
    ensures full { (result ≡ Ok false) ↔ (vec_len into.new ≡ limit) }

    // The source failed in this call.
    ensures cause { IsErrOf result InFault.Read → Rose (S.faults source.old) (S.faults source.new) }
    ensures never_falls { S.faults source.old ≤ S.faults source.new }
    ensures never_too_long { (n : ℕ) → IsErrOf result (InFault.TooLong n) → ⊥ }
{
    let mut filled = into.len();
    let ended = fill(source, into, &mut filled, limit);
    into.truncate(filled);
    ended
}

// The same, where only the first `filled` bytes of `into` count.
fn fill<S: Source>(
    source: &mut S,
    into: &mut Vec<u8>,
    filled: &mut usize,
    stop: usize,
) -> Result<bool, InFault>
    requires filled { filled.old ≡ vec_len into.old }
    requires within { vec_len into.old ≤ stop }
    requires small { stop ≤ 2 ^ 32 }
    ensures moved { Moves (S.left source.old) (S.left source.new) into.old.items (take filled.new into.new.items) }
    ensures filled { (filled.new ≤ vec_len into.new) × (filled.new ≤ stop) }
    ensures ended { result ≡ Ok true → IsAtEnd (S.left source.new) }
    ensures full { (result ≡ Ok false) ↔ (filled.new ≡ stop) }
    ensures cause { IsErrOf result InFault.Read → Rose (S.faults source.old) (S.faults source.new) }
    ensures never_falls { S.faults source.old ≤ S.faults source.new }
    ensures never_too_long { (n : ℕ) → IsErrOf result (InFault.TooLong n) → ⊥ }
{
    while *filled < stop {
        match read_piece(source, into, *filled, stop)? {
            0 => return Ok(true),
            count => *filled += count,
        }
    }
    Ok(false)
}

// One read to the place after the first `filled` bytes of `into`.
fn read_piece<S: Source>(
    source: &mut S,
    into: &mut Vec<u8>,
    filled: usize,
    stop: usize,
) -> Result<usize, InFault>
    requires filled { filled ≤ vec_len into.old }
    requires within { vec_len into.old ≤ stop }
    requires short { filled < stop }
    requires small { stop ≤ 2 ^ 32 }
    ensures len { (filled ≤ vec_len into.new) × (vec_len into.new ≤ stop) }
    ensures front { take filled into.new.items ≡ take filled into.old.items }
    ensures fits { IfOk result (λ n. filled + n ≤ vec_len into.new) }
    ensures given { IfOk result (λ n.
        Consumes (S.left source.old) (S.left source.new) (take n (drop filled into.new.items))) }
    ensures end { IfOk result (λ n. n ≡ 0 → IsAtEnd (S.left source.new)) }
    ensures kept { OnErr result (Keeps (S.left source.old) (S.left source.new)) }
    ensures cause { IsErrOf result InFault.Read → Rose (S.faults source.old) (S.faults source.new) }
    ensures never_falls { S.faults source.old ≤ S.faults source.new }
    ensures never_too_long { (n : ℕ) → IsErrOf result (InFault.TooLong n) → ⊥ }
{
    lengthen(into, stop.min(filled + PIECE), stop)?;
    let count = read_at(source, into.as_mut_slice(), filled)?;
    Ok(count)
}

// One read into `buf` from place `at` on.
fn read_at<S: Source>(source: &mut S, buf: &mut [u8], at: usize) -> Result<usize, Failed>
    requires { at < length buf.old }
    ensures front { take at buf.new ≡ take at buf.old }
    ensures fits { IfOk result (λ n. at + n ≤ length buf.new) }
    ensures given { IfOk result (λ n. Consumes (S.left source.old) (S.left source.new) (take n (drop at buf.new))) }
    ensures end { IfOk result (λ n. n ≡ 0 → IsAtEnd (S.left source.new)) }
    ensures kept { OnErr result (Keeps (S.left source.old) (S.left source.new)) }
    ensures cause { OnErr result (Rose (S.faults source.old) (S.faults source.new)) }
    ensures never_falls { S.faults source.old ≤ S.faults source.new }
{
    source.read(&mut buf[at..])
}

// Makes `into` at least `len` bytes long, by zeros. Its memory grows by a sixteenth at least, though
// not past `stop` bytes, so that all its moves cost no more than a multiple of its length.
fn lengthen(into: &mut Vec<u8>, len: usize, stop: usize) -> Result<(), AllocError>
    requires len { len ≤ stop }
    requires within { vec_len into.old ≤ stop }
    requires small { stop ≤ 2 ^ 32 }
    ensures kept { StartsWith into.new.items into.old.items }
    ensures within { vec_len into.new ≤ stop }
    ensures long { OnOk result (len ≤ vec_len into.new) }
{
    let old = into.len();
    if old < len {
        if into.capacity() < len {
            into.reserve_exact((stop - old).min((len - old).max(old / 16)))?;
        }
        into.resize(len, 0)?;
    }
    Ok(())
}

#[cfg(test)]
mod tests {
    use super::*;
    use crate::mem_source::MemSource;
    use crate::sure_source::SureSource;
    use std::test::Fail;

    // Gives zeros without an end, and tells nothing of them.
    #[derive(Drop)]
    struct Zeros;

    impl Source for Zeros {
        ghost use Rattle.std.specs.Prelude.{None};

        ghost left = { λ _. None };

        ghost faults = { λ _. 0 };

        fn read(&mut self, buf: &mut [u8]) -> Result<usize, Failed> {
            buf.fill(0);
            Ok(buf.len())
        }
    }

    #[test]
    fn reads_within_the_limit(rt: HostRuntime) -> Result<(), Fail> {
        let letters = b"abcdefghijk".as_slice();
        let mut source = SureSource::new(letters.to_vec(rt.alloc())?, 4);
        let bytes = read_to_limit(rt.alloc(), &mut source, 11)?;
        assert_eq!(rt; bytes.as_slice(), letters);
        let mut source = SureSource::new(letters.to_vec(rt.alloc())?, 4);
        let answer = read_to_limit(rt.alloc(), &mut source, 10);
        assert_eq!(rt; answer.err(), Some(InFault::TooLong { limit: 10 }));
        let answer = read_to_limit(rt.alloc(), &mut Zeros, 200_000);
        assert_eq!(rt; answer.err(), Some(InFault::TooLong { limit: 200_000 }));
        Ok(())
    }

    #[test]
    fn reads_on_to_the_end_or_the_limit(rt: HostRuntime) -> Result<(), Fail> {
        let letters = b"abcdefghijk".as_slice();
        for (limit, ended) in [(11, false), (12, true)] {
            let mut source = SureSource::new(letters.to_vec(rt.alloc())?, 4);
            let mut bytes = vec![in rt.alloc()]?;
            assert_eq!(rt;
                read_on(&mut source, &mut bytes, limit),
                Ok(ended),
                "at {limit}"
            );
            assert_eq!(rt; bytes.as_slice(), letters, "at {limit}");
        }
        let mut bytes = b"ab".to_vec(rt.alloc())?;
        let mut source = SureSource::new(letters.to_vec(rt.alloc())?, 4);
        assert_eq!(rt; read_on(&mut source, &mut bytes, 5), Ok(false));
        assert_eq!(rt; bytes.as_slice(), b"ababc".as_slice());
        Ok(())
    }

    #[test]
    fn stops_at_a_fault(rt: HostRuntime) -> Result<(), Fail> {
        let document = b"armcaps 1\ncore 0\nboot 0\nfinalise\nend\n".to_vec(rt.alloc())?;
        let mut source = MemSource::new(document, 8, vec![in rt.alloc(); 3]?);
        let answer = read_to_limit(rt.alloc(), &mut source, 135266304);
        assert_eq!(rt; answer.err(), Some(InFault::Read));
        Ok(())
    }
}
