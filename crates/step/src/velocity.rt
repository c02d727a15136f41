// The velocity passes of `solve` in solver.rs, each tested before it is corrected.
ghost use Rattle.std.specs.Prelude.{◌≡◌, [], ◌≤◌, ◌<◌};
ghost use Rattle.arith.specs.Words.{nan};
ghost use Rattle.rows.specs.View.{Out};
ghost use Rattle.solves.specs.Region.{vec_at};
ghost use Rattle.solves.specs.View.{RHS, GENERALIZED, Beside, system_at, rhs_at, shares_in};
ghost use Rattle.solves.specs.Layout.{ROWS_MOST, BODIES_MOST};
ghost use Rattle.step.specs.Layout.{CANDIDATE, STATES};
ghost use Rattle.step.specs.Bodies.{velocity_of, velocity_rhs, compatible_of, kick_bodies};
ghost use Rattle.step.specs.View.{candidates_at};
ghost use Rattle.step.specs.RunView.{Velocity, job_for, candidates_of, MotionOf, MotionAt, Remembers};
ghost use Rattle.step.specs.Says.{Leaves};

use crate::bodies::{load_candidate, store_candidate};
use crate::layout::Scratch;
use crate::passes::{Apply, Counts, Stage, correct};
use arith::fault::CollisionError;
use arith::number::abs;
use rows::body::MomentumBody;
use rows::geometry::EqualityRow;
use solves::joined::Rows;
use solves::layout::{GENERALIZED, RHS, SOLUTION};
use solves::operator::finite_number;
use solves::places::load_generalized;
use std::ops::ControlFlow;
use vectors::vector::Vec3;

// What a body adds to the rates of its rows: its velocity, and its angular velocity where that is finite.
#[derive(Clone, Copy)]
pub(crate) struct Motion {
    pub body: usize,
    pub linear: Vec3,
    pub angular: Result<Vec3, CollisionError>,
}

fn motion_of(s: &Scratch, k: usize) -> Motion
    requires { k < BODIES_MOST }
    ensures { MotionAt s.now k result }
{
    let body = load_candidate(s, k);
    Motion {
        body: k,
        linear: body.momentum.div(body.mass),
        angular: body.omega(),
    }
}

// The motion of candidate k: the one kept from the row before, where that row has the same body.
fn motion_again(s: &Scratch, k: usize, last: Option<Motion>) -> Motion
    requires { (k < BODIES_MOST) × Remembers s.now last }
    ensures { MotionAt s.now k result }
{
    match last {
        Some(motion) if motion.body == k => motion,
        _ => motion_of(s, k),
    }
}

// The rate of a row, from the motions of its bodies.
fn velocity(row: EqualityRow, a: Motion, b: Motion) -> Result<f64, CollisionError>
    ensures { (x y : MomentumBody) → MotionOf x a → MotionOf y b → result ≡ velocity_of row x y }
{
    let wa = a.angular?;
    let wb = b.angular?;
    finite_number(
        row.linear_a.dot(a.linear)
            + row.angular_a.dot(wa)
            + row.linear_b.dot(b.linear)
            + row.angular_b.dot(wb),
    )
}

fn velocity_rhs(s: &mut Scratch, rows: &Rows) -> Result<(), CollisionError>
    ensures { Leaves (Beside RHS) s.old s.new result (λ u. rhs_at u rows.now) (velocity_rhs (system_at s.old rows.now).rows (candidates_of rows.now s.old)) }
{
    let mut last_a = None;
    let mut last_b = None;
    for k in 0..rows.count() {
        let row = rows.load(s, k);
        let a = motion_again(s, row.a, last_a);
        let b = motion_again(s, row.b, last_b);
        s[RHS + k] = -velocity(row, a, b)?;
        last_a = Some(a);
        last_b = Some(b);
    }
    Ok(())
}

fn compatible(s: &Scratch, n: usize) -> bool
    requires { n ≤ ROWS_MOST }
    ensures { result ≡ compatible_of (vec_at s.now RHS n) }
{
    (0..n).all(|k| abs(s[RHS + k]) <= 1.0e-12)
}

fn kick_candidates(s: &mut Scratch, body_count: usize) -> Result<(), CollisionError>
    requires { body_count ≤ BODIES_MOST }
    ensures { Leaves (Out CANDIDATE STATES) s.old s.new result (λ u. candidates_at u body_count)
        (kick_bodies (candidates_at s.old body_count) (shares_in s.old body_count)) }
{
    for k in 0..body_count {
        let share = load_generalized(s, GENERALIZED, k);
        let body = load_candidate(s, k).kick(share.linear, share.angular)?;
        store_candidate(s, k, body);
    }
    Ok(())
}

// The velocity loop over the candidates: their rates are tested before they are corrected.
#[derive(Clone, Copy)]
pub(crate) struct VelocityStage {
    pub cyclic: bool,
}

impl Apply for VelocityStage {
    ghost which = { Velocity };

    // A solve's reaction on the candidates.
    fn apply(&self, s: &mut Scratch, rows: &Rows) -> Result<(), CollisionError> {
        rows.transpose(s, SOLUTION)?;
        kick_candidates(s, rows.bodies)
    }
}

impl Stage for VelocityStage {
    ghost job = { λ it. job_for [] nan it.cyclic };

    ghost needs = { λ it rows. Unit {0} };

    // The rates of the rows, and where they are not near 0 a correction of the candidates' velocities.
    fn pass(
        &self,
        s: &mut Scratch,
        rows: &Rows,
        counts: &mut Counts,
    ) -> Result<ControlFlow<()>, CollisionError> {
        velocity_rhs(s, rows)?;
        if compatible(s, rows.count()) {
            return Ok(ControlFlow::Break(()));
        }
        correct(self, s, rows, self.cyclic, counts)
    }

    ghost apart = { λ it rows needs. tt };
}
