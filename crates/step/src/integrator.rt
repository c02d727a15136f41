// The nonlinear loop of `solve` in solver.rs, and the run as a whole.
ghost use Rattle.std.specs.Prelude.{◌≡◌, ℕ, ◌+◌, ◌*◌, ◌≤◌, ◌<◌, length, take, cond, leb, Bool, List, Float};
ghost use Rattle.arith.specs.Flow.{tab, leaving};
ghost use Rattle.rows.specs.declared.geometry.Joint.{Joint};
ghost use Rattle.rows.specs.View.{Out};
ghost use Rattle.solves.specs.Region.{vec_at, Does};
ghost use Rattle.solves.specs.View.{ROWS, MASSES, RHS, SOLUTION, GENERALIZED, rows_on, mass_at, masses_at, Beside, shares_in};
ghost use Rattle.solves.specs.Layout.{ROWS_MOST, BODIES_MOST, MASS_TABLE};
ghost use Rattle.step.specs.Layout.{RECORD, IMPULSES, START, CANDIDATE, USED, BODIES, STATES};
ghost use Rattle.step.specs.Records.{count_of_bodies, record_at, records_of};
ghost use Rattle.step.specs.Bodies.{start_bodies, mass_response, prepare_masses, kick_and_drift, move_bodies, rows_met, rhs_of};
ghost use Rattle.step.specs.Bodies.{start_of, add_impulses, candidate_of, states_of};
ghost use Rattle.step.specs.Step.{finish_of, run_of, run_for};
ghost use Rattle.step.specs.View.{start_body_at, candidate_at, start_bodies_at, candidates_at, states_at};
ghost use Rattle.step.specs.RunView.{Nonlinear, bodies_at, impulses_at, started_at, job_for, rows_before, Sides, Joins, Goes, LIMIT};
ghost use Rattle.step.specs.Says.{Leaves, WritesRows, Finds, Finishes};
ghost use Rattle.step.specs.Joined.{Joined, RowBodies, Spread};

use crate::bodies::{
    load_candidate, load_record, load_start, load_state, store_candidate, store_start, store_state,
};
use crate::layout::{CANDIDATE, IMPULSES, MOVING, RECORD, Scratch};
use crate::passes::{Apply, Counts, Stage, correct, stage_loop};
use crate::velocity::VelocityStage;
use arith::fault::CollisionError;
use arith::number::{abs, is_finite};
use rows::body::MomentumBody;
use rows::geometry::{Joint, ROW, TOLERANCE, VALUE, clear, row_count, write_equality_rows};
use solves::joined::Rows;
use solves::layout::{GENERALIZED, MASSES, RHS, ROWS, ROWS_MOST, SOLUTION, START_ROWS};
use solves::operator::finite_number;
use solves::places::{Generalized, MassResponse, load_generalized, store_mass};
use std::ops::ControlFlow;
use vectors::matrix::{Mat3, inverse_spd};

fn start_bodies(s: &mut Scratch, bodies: &[f64], body_count: usize) -> Result<(), CollisionError>
    requires { (RECORD * body_count ≤ length bodies.now) × (body_count ≤ BODIES_MOST) }
    ensures { Leaves (Out START BODIES) s.old s.new result (λ u. start_bodies_at u body_count) (start_bodies (tab body_count (record_at bodies.now))) }
{
    for k in 0..body_count {
        let record = load_record(bodies, k);
        let inverse = inverse_spd(record.inertia).unwrap_or(Mat3::ZERO);
        let body = MomentumBody::new(record, inverse)?;
        store_start(s, k, body);
    }
    Ok(())
}

fn fill(index: &mut [usize], from: usize, n: usize, body: usize)
    requires { from + n ≤ length index.old }
    ensures { Spread from n body index.old index.new }
{
    index[from..from + n].fill(body);
}

// The bodies of every row, and how many rows there are.
fn row_bodies(ia: &mut [usize], ib: &mut [usize], joints: &[Joint]) -> usize
    requires { (length joints.now ≤ 16) × (length ia.old ≡ ROWS_MOST) × (length ib.old ≡ ROWS_MOST) }
    ensures { (RowBodies joints.now (length joints.now) result ia.new ib.new) × (Sides joints.now (length joints.now) (take result ia.new) (take result ib.new))
        × (result ≡ rows_before joints.now (length joints.now)) }
{
    let mut n = 0;
    for joint in joints {
        let m = row_count(joint.kind);
        fill(ia, n, m, joint.body_a);
        fill(ib, n, m, joint.body_b);
        n += m;
    }
    n
}

fn load_moved(s: &Scratch, k: usize, moved: bool) -> MomentumBody
    requires { k < BODIES_MOST }
    ensures { result ≡ cond moved (candidate_at s.now k) (start_body_at s.now k) }
{
    if moved {
        return load_candidate(s, k);
    }
    load_start(s, k)
}

// The rows of all joints, of the bodies at the start or of the candidates.
fn write_rows(
    s: &mut Scratch,
    joints: &[Joint],
    place: usize,
    moved: bool,
) -> Result<(), CollisionError>
    requires { (place ≤ ROWS) × (Joined joints.now (length joints.now) BODIES_MOST) }
    ensures { WritesRows s.old s.new joints.now (length joints.now) place moved result }
{
    let mut n = 0;
    for joint in joints {
        let a = load_moved(s, joint.body_a, moved);
        let b = load_moved(s, joint.body_b, moved);
        n += write_equality_rows(s, place + ROW * n, *joint, a, b)?;
    }
    Ok(())
}

// The mass response of a body at its rotation, if it is finite.
#[tactic(auto, using(arith::specs::Literals::literals), unfolding(crate::specs::Bodies::mass_response, arith::specs::Flow::and_then))]
fn mass_response(body: MomentumBody) -> Result<MassResponse, CollisionError>
    ensures { result ≡ mass_response body }
{
    let rotation = body
        .rotation
        .to_mat3()
        .ok_or(CollisionError::ArithmeticOverflow)?;
    let angular = rotation
        .product(body.inverse_inertia)
        .product(rotation.transpose());
    let linear = 1.0 / body.mass;
    if !angular.is_finite() || !is_finite(linear) {
        return Err(CollisionError::ArithmeticOverflow);
    }
    Ok(MassResponse { linear, angular })
}

fn prepare_mass(s: &mut Scratch, k: usize, body: MomentumBody) -> Result<(), CollisionError>
    requires { k < BODIES_MOST }
    ensures { Leaves (Out (MASSES + 10 * k) 10) s.old s.new result (λ u. mass_at u MASSES k) (mass_response body) }
{
    let mass = mass_response(body)?;
    let angular = mass.angular;
    let x = angular.column(0);
    let y = angular.column(1);
    let z = angular.column(2);
    store_mass(s, MASSES, k, mass.linear, x, y, z);
    Ok(())
}

fn prepare_masses(s: &mut Scratch, body_count: usize, moved: bool) -> Result<(), CollisionError>
    requires { body_count ≤ BODIES_MOST }
    ensures { Leaves (Out MASSES MASS_TABLE) s.old s.new result (λ u. masses_at u MASSES body_count) (prepare_masses (bodies_at moved s.old body_count)) }
{
    for k in 0..body_count {
        let body = load_moved(s, k, moved);
        prepare_mass(s, k, body)?;
    }
    Ok(())
}

// A body kicked by its share, and drifted.
fn kick_and_drift(
    body: MomentumBody,
    kick: Generalized,
    dt: f64,
) -> Result<MomentumBody, CollisionError>
    ensures { result ≡ kick_and_drift dt body kick }
{
    let kicked = body.kick(kick.linear, kick.angular)?;
    kicked.drift(dt)
}

// The candidates: each pass restarts from the starting bodies with the summed impulses.
fn move_bodies(s: &mut Scratch, body_count: usize, dt: f64) -> Result<(), CollisionError>
    requires { body_count ≤ BODIES_MOST }
    ensures { Leaves (Out CANDIDATE STATES) s.old s.new result (λ u. candidates_at u body_count)
        (move_bodies dt (start_bodies_at s.old body_count) (shares_in s.old body_count)) }
{
    for k in 0..body_count {
        let share = load_generalized(s, GENERALIZED, k);
        let body = kick_and_drift(load_start(s, k), share, dt)?;
        store_candidate(s, k, body);
    }
    Ok(())
}

fn rows_met(s: &Scratch, n: usize) -> bool
    requires { n ≤ ROWS_MOST }
    ensures { (ia ib : List ℕ) → result ≡ rows_met (rows_on ia ib s.now ROWS n) }
{
    (0..n).all(|k| abs(s[ROWS + ROW * k + VALUE]) <= s[ROWS + ROW * k + TOLERANCE])
}

fn fill_rhs(s: &mut Scratch, dt: f64, n: usize)
    requires { n ≤ ROWS_MOST }
    ensures { (ia ib : List ℕ) → Does (Beside RHS) s.old s.new (vec_at s.new RHS n) (rhs_of dt (rows_on ia ib s.old ROWS n)) }
{
    for k in 0..n {
        s[RHS + k] = -s[ROWS + ROW * k + VALUE] / dt;
    }
}

fn add_impulses(s: &mut Scratch, n: usize) -> Result<(), CollisionError>
    requires { n ≤ ROWS_MOST }
    ensures { Leaves (Beside IMPULSES) s.old s.new result (λ u. vec_at u IMPULSES n) (add_impulses (vec_at s.old IMPULSES n) (vec_at s.old SOLUTION n)) }
{
    for k in 0..n {
        s[IMPULSES + k] = finite_number(s[IMPULSES + k] + s[SOLUTION + k])?;
    }
    Ok(())
}

// The nonlinear loop: from the summed impulses to candidates whose rows are met.
#[derive(Clone, Copy)]
pub(crate) struct NonlinearStage<'a> {
    pub joints: &'a [Joint],
    pub dt: f64,
    pub cyclic: bool,
}

impl NonlinearStage<'_> {
    // The first half of a pass: the candidates and their rows.
    fn candidate(&self, s: &mut Scratch, rows: &Rows) -> Result<(), CollisionError>
        requires { Joins self.now.joints.now rows.now }
        ensures { Finds s.old s.new rows.now result (candidate_of (job_for self.now.joints.now self.now.dt self.now.cyclic))
            × (impulses_at s.new rows.now ≡ impulses_at s.old rows.now) }
    {
        rows.transpose(s, IMPULSES)?;
        move_bodies(s, rows.bodies, self.dt)?;
        write_rows(s, self.joints, ROWS, true)
    }
}

impl Apply for NonlinearStage<'_> {
    ghost which = { Nonlinear };

    fn apply(&self, s: &mut Scratch, rows: &Rows) -> Result<(), CollisionError> {
        add_impulses(s, rows.count())
    }
}

impl Stage for NonlinearStage<'_> {
    ghost job = { λ it. job_for it.joints.now it.dt it.cyclic };

    ghost needs = { λ it rows. Joins it.joints.now rows };

    // The candidates, and where their rows are not met the impulses for the next pass.
    fn pass(
        &self,
        s: &mut Scratch,
        rows: &Rows,
        counts: &mut Counts,
    ) -> Result<ControlFlow<()>, CollisionError> {
        counts.nonlinear += 1;
        self.candidate(s, rows)?;
        let n = rows.count();
        if rows_met(s, n) {
            return Ok(ControlFlow::Break(()));
        }
        fill_rhs(s, self.dt, n);
        correct(self, s, rows, self.cyclic, counts)
    }

    ghost apart = { λ it rows needs. needs.apart };
}

// The states of the candidates, in their places.
fn make_states(s: &mut Scratch, bodies: &[f64], body_count: usize) -> Result<(), CollisionError>
    requires { (body_count ≤ count_of_bodies bodies.now) × (body_count ≤ BODIES_MOST) }
    ensures { Leaves (Out CANDIDATE STATES) s.old s.new result (λ u. states_at u body_count)
        (states_of (records_of bodies.now) (candidates_at s.old body_count)) }
{
    for k in 0..body_count {
        let body = load_candidate(s, k);
        let state = body.state(load_state(bodies, RECORD * k))?;
        store_state(s, CANDIDATE + MOVING * k, state);
    }
    Ok(())
}

// The velocity loop over the candidates' rows and the states, after the nonlinear loop met its rows.
fn finish_run(
    s: &mut Scratch,
    rows: &Rows,
    bodies: &[f64],
    cyclic: bool,
    counts: &mut Counts,
) -> Result<(), CollisionError>
    requires { (rows.now.bodies ≤ count_of_bodies bodies.now) × (counts.old.nonlinear ≤ 32) × (counts.old.linear ≤ 32 * LIMIT) }
    ensures { (joints : List Joint) (dt : Float) → Finishes s.old s.new rows.now counts.old counts.new result
        (finish_of (job_for joints dt cyclic) (records_of bodies.now)) }
{
    prepare_masses(s, rows.bodies, true)?;
    let candidate_rows = Rows {
        place: ROWS,
        bodies: rows.bodies,
        a: rows.a,
        b: rows.b,
    };
    // tested before each of at most 3 corrections; a third one is never accepted
    stage_loop(&VelocityStage { cyclic }, s, &candidate_rows, 3, counts)?;
    make_states(s, bodies, rows.bodies)
}

// What stands before the first pass: starting bodies, rows and masses.
fn start(
    s: &mut Scratch,
    bodies: &[f64],
    joints: &[Joint],
    rows: &Rows,
) -> Result<(), CollisionError>
    requires { (rows.now.bodies ≡ count_of_bodies bodies.now) × (Joins joints.now rows.now) }
    ensures { (dt : Float) (cyclic : Bool) → Does (Out 0 USED) s.old s.new (leaving result (started_at s.new rows.now))
        (start_of (job_for joints.now dt cyclic) (records_of bodies.now)) }
{
    start_bodies(s, bodies, rows.bodies)?;
    write_rows(s, joints, rows.place, false)?;
    prepare_masses(s, rows.bodies, false)
}

// Both loops over the rows of the joints: from the starting bodies to the states.
fn run_loops(
    s: &mut Scratch,
    rows: &Rows,
    bodies: &[f64],
    joints: &[Joint],
    dt: f64,
    counts: &mut Counts,
) -> Result<(), CollisionError>
    requires { (rows.now.bodies ≡ count_of_bodies bodies.now) × (Joins joints.now rows.now)
        × (counts.old.nonlinear ≡ 0) × (counts.old.linear ≡ 0) }
    ensures { Goes (Out 0 USED) s.old s.new counts.old counts.new (leaving result (states_at s.new rows.now.bodies))
        (run_of (job_for joints.now dt (leb rows.now.bodies (length joints.now))) (records_of bodies.now)) }
{
    let cyclic = rows.bodies <= joints.len();
    start(s, bodies, joints, rows)?;
    // from no impulse, at most 32 passes
    clear(s, IMPULSES, rows.count());
    let nonlinear = NonlinearStage { joints, dt, cyclic };
    stage_loop(&nonlinear, s, rows, 32, counts)?;
    finish_run(s, rows, bodies, cyclic, counts)
}

// The run of a plan: the bodies of its rows are listed once.
pub(crate) fn run(
    s: &mut Scratch,
    bodies: &[f64],
    joints: &[Joint],
    dt: f64,
    counts: &mut Counts,
) -> Result<(), CollisionError>
    requires { (Joined joints.now (length joints.now) (count_of_bodies bodies.now))
        × (counts.old.nonlinear ≡ 0) × (counts.old.linear ≡ 0) }
    ensures { Goes (Out 0 USED) s.old s.new counts.old counts.new (leaving result (states_at s.new (count_of_bodies bodies.now)))
        (run_for bodies.now joints.now (length joints.now) dt) }
{
    let mut ia = [0usize; ROWS_MOST];
    let mut ib = [0usize; ROWS_MOST];
    let n = row_bodies(&mut ia, &mut ib, joints);
    let rows = Rows {
        place: START_ROWS,
        bodies: bodies.len() / RECORD,
        a: &ia[..n],
        b: &ib[..n],
    };
    run_loops(s, &rows, bodies, joints, dt, counts)
}
