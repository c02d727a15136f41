// Answers each plan of data/plans.bin as `pose` would: a length in two bytes, the least first, then the plan.
#![tactic(auto)]

use std::fmt;
use std::fs::File;
use std::io::{Read, Write};
use step::layout::SCRATCH;
use streams::Unread;

// Why it went no further.
#[derive(Clone, Copy, Debug, PartialEq, Eq)]
enum Failure {
    Unread,
    Unwritten,
}

impl fmt::Display for Failure {
    fn fmt<W: fmt::Write>(&self, f: &mut fmt::Formatter<W>) -> fmt::Result {
        match self {
            Failure::Unread => write!(f, "plans.bin could not be read to its end"),
            Failure::Unwritten => write!(f, "an answer could not be written whole"),
        }
    }
}

impl From<Unread> for Failure {
    fn from(_: Unread) -> Failure {
        Failure::Unread
    }
}

// The next plan, where there is one: the file may end before a plan, and nowhere else.
fn next<'a, R: Read>(from: &mut R, room: &'a mut [u8; 65536]) -> Result<Option<&'a [u8]>, Failure> {
    let mut length = [0u8; 2];
    match streams::read_all(from, &mut length)? {
        0 => return Ok(None),
        1 => return Err(Failure::Unread),
        _ => {}
    }
    let plan = &mut room[..usize::from(u16::from_le_bytes(length))];
    if streams::read_all(from, plan)? < plan.len() {
        return Err(Failure::Unread);
    }
    Ok(Some(plan))
}

fn answer<W: Write>(plan: &[u8], to: &mut W) -> Result<(), Failure> {
    let mut scratch = [0.0f64; SCRATCH];
    let mut out = [0u8; 4096];
    let n = report::pose(plan, &mut scratch, &mut out);
    to.write_all(&out[..n]).map_err(|_| Failure::Unwritten)
}

// Nothing says that the file ends, so its rounds are counted.
fn replay<R: Read, W: Write>(from: &mut R, to: &mut W) -> Result<(), Failure> {
    let mut room = [0u8; 65536];
    for _ in 0..u64::MAX {
        let Some(plan) = next(from, &mut room)? else {
            return Ok(());
        };
        answer(plan, to)?;
    }
    Ok(())
}

fn main(rt: HostRuntime) {
    let mut plans = match File::open(&rt, "plans.bin") {
        Ok(plans) => plans,
        Err(error) => {
            let _ = eprintln!(rt; "plans.bin: {error}");
            return;
        }
    };
    let mut stdout = rt.stdout();
    if let Err(failure) = replay(&mut plans, &mut stdout) {
        let _ = eprintln!(rt; "replay: {failure}");
    }
}

#[cfg(test)]
mod tests {
    use super::*;
    use std::io;
    use std::io::ErrorKind;

    // Each of its reads fails.
    #[derive(Drop)]
    struct Broken;

    impl Read for Broken {
        fn read(&mut self, _: &mut [u8]) -> io::Result<usize> {
            Err(io::Error::from(ErrorKind::ConnectionReset))
        }
    }

    // Takes so many bytes, and then fails.
    #[derive(Drop)]
    struct Full {
        room: usize,
    }

    impl Write for Full {
        fn write(&mut self, bytes: &[u8]) -> io::Result<usize> {
            if self.room == 0 {
                return Err(io::Error::from(ErrorKind::StorageFull));
            }
            let n = bytes.len().min(self.room);
            self.room -= n;
            Ok(n)
        }

        fn flush(&mut self) -> io::Result<()> {
            Ok(())
        }
    }

    #[test]
    fn where_the_file_may_end(rt: HostRuntime) {
        for (file, want) in [
            (b"".as_slice(), Ok(())),
            (b"\x03".as_slice(), Err(Failure::Unread)),
            (b"\x03\x00ab".as_slice(), Err(Failure::Unread)),
            (b"\x03\x00abc".as_slice(), Ok(())),
            (b"\x03\x00abc\x00".as_slice(), Err(Failure::Unread)),
        ] {
            let mut from = file;
            assert_eq!(rt; replay(&mut from, &mut io::sink()), want, "of {file:?}");
        }
    }

    #[test]
    fn a_failed_read(rt: HostRuntime) {
        for file in [
            b"".as_slice(),
            b"\x03\x00ab".as_slice(),
            b"\x03\x00abc".as_slice(),
        ] {
            let mut from = file.chain(Broken);
            assert_eq!(rt;
                replay(&mut from, &mut io::sink()),
                Err(Failure::Unread),
                "after {file:?}"
            );
        }
    }

    #[test]
    fn a_failed_write(rt: HostRuntime) {
        let mut from = b"\x03\x00abc".as_slice();
        assert_eq!(rt;
            replay(&mut from, &mut Full { room: 4 }),
            Err(Failure::Unwritten)
        );
    }
}
