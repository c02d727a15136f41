// Reads a plan from standard input, and writes its answer to standard output.
//
// The first 5,756 bytes decide every report (`pose-first-bytes` in specs/PoseLaws.antt of `report`), so an input of 8,192 holds
// all that can matter.
//
// What `send` is handed is proved to be the text for the input that `main` received. What no proof says of reading and writing
// is listed in README, "What is left unproved".
#![tactic(auto)]

ghost use Rattle.std.specs.Prelude.{◌≡◌, ◌↔◌, IsErr, IsErrOf};
ghost use Rattle.std.specs.Io.{ReadsAtMost};
ghost use Rattle.pose.specs.Reply.{printed};

use std::fmt;
use std::io::Write;
use step::layout::SCRATCH;
use streams::Input;

// What could not be done.
#[derive(Clone, Copy, Debug)]
enum Failure {
    Unread,
    Unwritten,
}

impl fmt::Display for Failure {
    fn fmt<W: fmt::Write>(&self, f: &mut fmt::Formatter<W>) -> fmt::Result {
        match self {
            Failure::Unread => write!(f, "standard input could not be read"),
            Failure::Unwritten => write!(f, "the answer could not be written whole"),
        }
    }
}

fn main(rt: HostRuntime) {
    let mut stdin = rt.stdin();
    let input = streams::receive(&mut stdin);
    let mut room = [0u8; 4096];
    let text = reply_to(&input, &mut room);
    if let Err(failure) = send(&rt, &input, text) {
        let _ = eprintln!(rt; "pose: {failure}");
    }
}

// The answer to what was received; after a failed read there is none.
fn reply_to<'a>(input: &Input, room: &'a mut [u8; 4096]) -> &'a [u8]
    requires { ReadsAtMost input.now.got input.now.bytes }
    ensures { result.now ≡ printed input.now }
{
    match &input.got {
        Ok(n) => {
            let mut scratch = [0.0f64; SCRATCH];
            let count = report::pose(&input.bytes[..*n], &mut scratch, room);
            &room[..count]
        }
        Err(_) => &[],
    }
}

// Writes the text for an input; after a failed read nothing is written.
fn send(rt: &HostRuntime, input: &Input, text: &[u8]) -> Result<(), Failure>
    requires { text.now ≡ printed input.now }
    ensures { IsErrOf result Failure.Unread ↔ IsErr input.now.got }
{
    if input.got.is_err() {
        return Err(Failure::Unread);
    }
    let mut stdout = rt.stdout();
    stdout.write_all(text).map_err(|_| Failure::Unwritten)
}
