// One step of the constrained integrator: `ConstrainedIntegrator::solve` with the refusals of SPECIFICATION §7.
#![tactic(auto)]

mod bodies;
mod checks;
mod integrator;
pub mod layout;
mod passes;
mod velocity;

ghost use Rattle.std.specs.Prelude.{◌≡◌, ◌%◌, ◌≤◌, length, replicate, Err};
ghost use Rattle.arith.specs.Real.{ratio};
ghost use Rattle.arith.specs.Flow.{leaving};
ghost use Rattle.solves.specs.Layout.{BODIES_MOST};
ghost use Rattle.step.specs.Layout.{RECORD, SCRATCH};
ghost use Rattle.step.specs.Records.{count_of_bodies};
ghost use Rattle.step.specs.Checks.{number_of};
ghost use Rattle.step.specs.Joined.{Joined};
ghost use Rattle.step.specs.View.{states_at};
ghost use Rattle.step.specs.Step.{fault_outcome, concluded, run_for};
ghost use Rattle.step.specs.ConcludeView.{Concludes, Reports};
ghost use Rattle.step.specs.Answered.{Answered};

use crate::bodies::{in_ground, write_states};
use crate::checks::refusal;
use crate::integrator::run;
use crate::layout::{RECORD, SCRATCH, Scratch};
use crate::passes::Counts;
use arith::fault::CollisionError;
use rows::geometry::{Joint, clear};

// The refusals of SPECIFICATION §7, in its order.
#[derive(Clone, Copy, Debug, PartialEq, Eq)]
pub enum Refusal {
    TimeStep,
    Bodies,
    Joints,
    Scratch,
    NotFinite,
    OutOfRange,
    Inertia,
    JointBodies,
    JointNumbers,
    NonConvergent,
    ArithmeticOverflow,
    Ground,
}

impl Refusal {
    // SPECIFICATION's number.
    pub fn number(self) -> usize
        ensures { result ≡ number_of (Err self) }
    {
        match self {
            Refusal::TimeStep => 1,
            Refusal::Bodies => 2,
            Refusal::Joints => 3,
            Refusal::Scratch => 4,
            Refusal::NotFinite => 5,
            Refusal::OutOfRange => 6,
            Refusal::Inertia => 7,
            Refusal::JointBodies => 8,
            Refusal::JointNumbers => 9,
            Refusal::NonConvergent => 10,
            Refusal::ArithmeticOverflow => 11,
            Refusal::Ground => 12,
        }
    }
}

// A run's failure is refusal 10 or 11.
impl From<CollisionError> for Refusal {
    ghost from_gives = { λ error refusal. Err refusal ≡ fault_outcome error };

    fn from(error: CollisionError) -> Refusal {
        match error {
            CollisionError::NonConvergent => Refusal::NonConvergent,
            CollisionError::ArithmeticOverflow => Refusal::ArithmeticOverflow,
        }
    }
}

// The answer with the nonlinear passes begun and the linear passes counted.
#[derive(Clone, Copy, Debug, PartialEq, Eq)]
pub struct Report {
    pub outcome: Result<(), Refusal>,
    pub nonlinear: usize,
    pub linear: usize,
}

impl Report {
    // The number of the refusal, and 0 for an accepted step.
    pub fn number(self) -> usize
        ensures { result ≡ number_of self.outcome }
    {
        match self.outcome {
            Ok(()) => 0,
            Err(refusal) => refusal.number(),
        }
    }
}

// What the run's end is to the caller: its states are written where all stand on the plan's ground.
fn conclude(
    bodies: &mut [f64],
    work: &Scratch,
    body_count: usize,
    ran: Result<(), CollisionError>,
) -> Result<(), Refusal>
    requires { (length bodies.old % RECORD ≡ 0) × (body_count ≡ count_of_bodies bodies.old) × (body_count ≤ BODIES_MOST) }
    ensures { Concludes bodies.old bodies.new result (leaving ran (states_at work.now body_count)) }
{
    ran?;
    if in_ground(work, body_count) {
        write_states(bodies, work, body_count);
        return Ok(());
    }
    Err(Refusal::Ground)
}

// The run on the doubles of scratch that a step asks for, which are zero afterwards.
fn solve_in(bodies: &mut [f64], joints: &[Joint], dt: f64, work: &mut Scratch) -> Report
    requires { (length bodies.old % RECORD ≡ 0)
        × (Joined joints.now (length joints.now) (count_of_bodies bodies.old)) }
    ensures { Reports bodies.new work.new result
        (concluded bodies.old (replicate SCRATCH (ratio 0 1)) (run_for bodies.old joints.now (length joints.now) dt)) }
{
    let body_count = bodies.len() / RECORD;
    let mut counts = Counts {
        nonlinear: 0,
        linear: 0,
    };
    let ran = run(work, bodies, joints, dt, &mut counts);
    let outcome = conclude(bodies, work, body_count, ran);
    clear(work, 0, SCRATCH);
    Report {
        outcome,
        nonlinear: counts.nonlinear,
        linear: counts.linear,
    }
}

pub fn solve(bodies: &mut [f64], joints: &[Joint], dt: f64, scratch: &mut [f64]) -> Report
    ensures { Answered bodies.old bodies.new joints.now (length joints.now) dt scratch.old scratch.new result }
{
    let outcome = refusal(bodies, joints, dt, scratch.len());
    if outcome.is_err() {
        return Report {
            outcome,
            nonlinear: 0,
            linear: 0,
        };
    }
    solve_in(bodies, joints, dt, scratch.first_chunk_mut().unwrap())
}
