// Reading an input until it ends, with a failed read told from the end of the input.
#![tactic(auto)]

ghost use Rattle.std.specs.Prelude.{◌≡◌, ℕ, List, Option, Result, MatchResult, length, replicate, drop};
ghost use Rattle.std.specs.Io.{ReadsAtMost};
ghost use Rattle.std.specs.Io.KnownBytes.{ReadConsumes};
ghost use Rattle.std.specs.declared.io.Error.{Error};
ghost use Rattle.streams.specs.Receive.{Receives, Told};

use std::io;

// A read failed with this error, when so many bytes had come.
#[derive(Clone, Copy, Debug)]
pub struct Unread {
    pub count: usize,
    pub error: io::Error,
}

// The first bytes of an input, and what `read_all` answered. Those behind the ones that came are 0.
#[derive(Clone, Copy)]
pub struct Input {
    pub bytes: [u8; 8192],
    pub got: Result<usize, Unread>,
}

// The first 8,192 bytes of an input.
pub fn receive<R: io::Read>(from: &mut R) -> Input
    ensures { Receives (replicate 8192 0) result.bytes (R.remaining from.old) (R.remaining from.new) result.got }
{
    let mut bytes = [0u8; 8192];
    let got = read_all(from, &mut bytes);
    Input { bytes, got }
}

// Reads until the buffer is full, the input ends or a read fails, and answers how many bytes came: fewer than the buffer
// holds only where the input ended. Into a buffer with no room nothing is read. That such an answer is the one of its
// last read is what `fill` promises: over std's trait no contract can say it.
pub fn read_all<R: io::Read>(from: &mut R, buffer: &mut [u8]) -> Result<usize, Unread>
    ensures receives { Receives buffer.old buffer.new (R.remaining from.old) (R.remaining from.new) result }
    ensures none { length buffer.old ≡ 0 → from.new ≡ from.old }
{
    fill(from, buffer)
}

// A reader as the loop sees it. A contract has no name for what a call of `read` answered; here it has one, so that the loop
// is held to what its reads answered.
trait Source {
    // The bytes that reads will give from here on, where they are known.
    ghost remaining: { Self → Option (List ℕ) };

    // That a read of the first may answer so and leave it as the second.
    ghost gives: { Self → Result ℕ Error → Self → Type 0 };

    fn read_once(&mut self, buffer: &mut [u8]) -> io::Result<usize>
        ensures bound { ReadsAtMost result buffer.new }
        ensures bytes { ReadConsumes (remaining self.old) (remaining self.new) result buffer.new }
        ensures told { gives self.old result self.new };
}

// Every reader is one. Std has no name for what a read answered, so here a read may answer anything.
impl<R: io::Read> Source for R {
    ghost remaining = { λ from. R.remaining from };

    ghost gives = { λ _ _ _. Unit };

    fn read_once(&mut self, buffer: &mut [u8]) -> io::Result<usize> {
        self.read(buffer)
    }
}

// The loop of `read_all`. Where it stops before the buffer is full, it answers what its last read answered.
fn fill<S: Source>(from: &mut S, buffer: &mut [u8]) -> Result<usize, Unread>
    ensures receives { Receives buffer.old buffer.new (S.remaining from.old) (S.remaining from.new) result }
    ensures none { length buffer.old ≡ 0 → from.new ≡ from.old }
    ensures told { Told S.gives (length buffer.old) from.new result }
{
    let mut chunk = [0u8; 4096];
    let mut count = 0;
    while count < buffer.len() {
        match read_some(from, &mut buffer[count..], &mut chunk) {
            Ok(0) => return Ok(count),
            Ok(n) => count += n,
            Err(error) => return Err(Unread { count, error }),
        }
    }
    Ok(count)
}

// One read. It goes by way of a chunk: a reader may write behind the bytes that it brings, and no byte of the buffer is to
// change but those. The chunk is lent, since a reader may bring a byte at a time, and to make a chunk takes longer than that.
fn read_some<S: Source>(
    from: &mut S,
    buffer: &mut [u8],
    chunk: &mut [u8; 4096],
) -> io::Result<usize>
    ensures bound { ReadsAtMost result buffer.new }
    ensures bytes { ReadConsumes (S.remaining from.old) (S.remaining from.new) result buffer.new }
    ensures rest { MatchResult result (λ n. drop n buffer.new ≡ drop n buffer.old) (λ _. buffer.new ≡ buffer.old) }
    ensures told { S.gives from.old result from.new }
{
    let most = buffer.len().min(chunk.len());
    let n = from.read_once(&mut chunk[..most])?;
    buffer[..n].copy_from_slice(&chunk[..n]);
    Ok(n)
}

#[cfg(test)]
mod tests {
    use super::*;
    use std::io::{ErrorKind, Read};

    // Each of its reads fails.
    #[derive(Drop)]
    struct Broken;

    impl Read for Broken {
        fn read(&mut self, _: &mut [u8]) -> io::Result<usize> {
            Err(io::Error::from(ErrorKind::ConnectionReset))
        }
    }

    #[test]
    fn the_end_after_two_reads(rt: HostRuntime) {
        let mut from = b"abc".as_slice().chain(b"de".as_slice());
        let mut buffer = [b'.'; 8];
        assert!(rt; matches!(read_all(&mut from, &mut buffer), Ok(5)));
        assert_eq!(rt; buffer.as_slice(), b"abcde...".as_slice());
    }

    #[test]
    fn a_failure_in_mid_stream(rt: HostRuntime) {
        let mut from = b"abc".as_slice().chain(b"de".as_slice()).chain(Broken);
        let mut buffer = [b'.'; 8];
        let Err(unread) = read_all(&mut from, &mut buffer) else {
            panic!(rt; "the failed read was taken for the end");
        };
        assert_eq!(rt; unread.count, 5);
        assert_eq!(rt; unread.error.kind(), ErrorKind::ConnectionReset);
        assert_eq!(rt; buffer.as_slice(), b"abcde...".as_slice());
    }

    // A full buffer is not read on, so the failure behind it is not met.
    #[test]
    fn a_failure_behind_what_is_read(rt: HostRuntime) {
        let mut from = b"abcde".as_slice().chain(Broken);
        let mut buffer = [b'.'; 5];
        assert!(rt; matches!(read_all(&mut from, &mut buffer), Ok(5)));
        assert!(rt; matches!(read_all(&mut Broken, &mut []), Ok(0)));
    }

    // More than one chunk brings.
    #[test]
    fn a_long_input(rt: HostRuntime) {
        let mut from = io::repeat(7).take(8191);
        let input = receive(&mut from);
        assert!(rt; matches!(input.got, Ok(8191)));
        assert!(rt; input.bytes[..8191].iter().all(|byte| *byte == 7));
        assert_eq!(rt; input.bytes[8191], 0);
    }
}
