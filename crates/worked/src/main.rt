// The worked examples of SPECIFICATION §15 that are not starred: each is stepped, and its report written.
#![tactic(auto)]

ghost use Rattle.std.specs.Prelude.{◌+◌, ◌≤◌, length};

use report::text::{Counts, report};
use rows::geometry::{Joint, JointFrame, Kind};
use std::io;
use std::io::Write;
use step::layout::SCRATCH;
use vectors::quaternion::Quat;
use vectors::vector::Vec3;

// A body from `at` on: identity rotation and inertia, velocity (speed, 0, 0); all else is 0 already.
fn place(bodies: &mut [f64], at: usize, mass: f64, speed: f64)
    requires { at + 26 ≤ length bodies.old }
{
    bodies[at + 6] = 1.0;
    bodies[at + 7] = speed;
    bodies[at + 13] = mass;
    bodies[at + 17] = 1.0;
    bodies[at + 21] = 1.0;
    bodies[at + 25] = 1.0;
}

// A ball at the origins of bodies 0 and 1.
fn ball() -> Joint {
    let frame = JointFrame {
        local_anchor: Vec3 {
            x: 0.0,
            y: 0.0,
            z: 0.0,
        },
        local_rotation: Quat {
            x: 0.0,
            y: 0.0,
            z: 0.0,
            w: 1.0,
        },
    };
    Joint {
        body_a: 0,
        body_b: 1,
        frame_a: frame,
        frame_b: frame,
        kind: Kind::Ball,
    }
}

// Steps these bodies, and writes the report.
fn show<W: Write>(to: &mut W, bodies: &mut [f64], joints: &[Joint], dt: f64) -> io::Result<()> {
    let mut scratch = [0.0; SCRATCH];
    let mut out = [0u8; 4096];
    let answer = step::solve(bodies, joints, dt, &mut scratch);
    let counts = Counts::from(answer);
    let n = match answer.outcome {
        Ok(()) => report(Ok(&bodies[..]), counts, &mut out),
        Err(refusal) => report(Err(refusal.number()), counts, &mut out),
    };
    to.write_all(&out[..n])
}

// A body of this mass moves one metre in a step of one second.
fn show_one<W: Write>(to: &mut W, mass: f64) -> io::Result<()> {
    let mut one = [0.0; 26];
    place(&mut one, 0, mass, 1.0);
    show(to, &mut one, &[], 1.0)
}

// Two bodies at rest with joints that hold.
fn show_two<W: Write>(to: &mut W, joints: &[Joint]) -> io::Result<()> {
    let mut two = [0.0; 52];
    place(&mut two, 0, 2.0, 0.0);
    place(&mut two, 26, 2.0, 0.0);
    show(to, &mut two, joints, 1.0)
}

// All of them, as far as they can be written.
fn show_all<W: Write>(to: &mut W) -> io::Result<()> {
    let mut none = [0.0; 0];
    let balls = [ball(); 17];
    show_one(to, 2.0)?;
    show(to, &mut none, &[], 1.0)?;
    show_two(to, &balls[..16])?;
    show_two(to, &balls)?;
    show_one(to, 0.0009765625)
}

fn main(rt: HostRuntime) {
    let mut stdout = rt.stdout();
    if show_all(&mut stdout).is_err() {
        let _ = eprintln!(rt; "worked: a report could not be written whole");
    }
}
