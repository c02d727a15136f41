// Records of bodies in the caller's slice, and bodies in motion in the scratch.
ghost use Rattle.std.specs.Prelude.{◌≡◌, ◌+◌, ◌*◌, ◌≤◌, ◌<◌, length};
ghost use Rattle.arith.specs.Real.{ratio};
ghost use Rattle.arith.specs.Flow.{every};
ghost use Rattle.rows.specs.Body.{state_with};
ghost use Rattle.rows.specs.View.{vec3_at, Out, Kept};
ghost use Rattle.solves.specs.System.{BODIES_MOST};
ghost use Rattle.step.specs.Layout.{START, CANDIDATE};
ghost use Rattle.step.specs.Records.{RECORD, MOVING, quat_at, mat_at, record_at};
ghost use Rattle.step.specs.Checks.{within_of};
ghost use Rattle.step.specs.View.{cols_of, fixed_at, fixed_of, body_from, start_body_at, candidate_at};
ghost use Rattle.step.specs.View.{held_of, moved_to, Handed, state_at};

use crate::checks::within;
use crate::layout::{CANDIDATE, MOVING, RECORD, START, Scratch};
use rows::body::{BodyState, MomentumBody, RigidBody};
use rows::geometry::{load3, store3};
use vectors::matrix::Mat3;
use vectors::quaternion::Quat;
use vectors::vector::Vec3;

fn load4(s: &[f64], i: usize) -> Quat
    requires { i + 4 ≤ length s.now }
    ensures { result ≡ quat_at s.now i }
{
    Quat {
        x: s[i],
        y: s[i + 1],
        z: s[i + 2],
        w: s[i + 3],
    }
}

fn store4(s: &mut [f64], i: usize, q: Quat)
    requires { i + 4 ≤ length s.old }
    ensures { (Kept (λ j. Out i 4 j) s.old s.new) × (quat_at s.new i ≡ q) }
{
    s[i] = q.x;
    s[i + 1] = q.y;
    s[i + 2] = q.z;
    s[i + 3] = q.w;
}

fn load_mat3(s: &[f64], i: usize) -> Mat3
    requires { i + 9 ≤ length s.now }
    ensures { result ≡ mat_at s.now i }
{
    let x = load3(s, i);
    let y = load3(s, i + 3);
    let z = load3(s, i + 6);
    Mat3::from_cols(x, y, z)
}

fn store_mat3(s: &mut [f64], i: usize, m: Mat3)
    requires { i + 9 ≤ length s.old }
    ensures { (Kept (λ j. Out i 9 j) s.old s.new) × (mat_at s.new i ≡ cols_of m) }
{
    let c = m.to_columns();
    store3(s, i, Vec3::new(c[0][0], c[0][1], c[0][2]));
    store3(s, i + 3, Vec3::new(c[1][0], c[1][1], c[1][2]));
    store3(s, i + 6, Vec3::new(c[2][0], c[2][1], c[2][2]));
}

// Record k of a body slice.
pub(crate) fn load_record(bodies: &[f64], k: usize) -> RigidBody
    requires { RECORD * k + RECORD ≤ length bodies.now }
    ensures { result ≡ record_at bodies.now k }
{
    let i = RECORD * k;
    RigidBody {
        origin: load3(bodies, i),
        rotation: load4(bodies, i + 3),
        linear_velocity: load3(bodies, i + 7),
        angular_velocity: load3(bodies, i + 10),
        mass: bodies[i + 13],
        center_of_mass: load3(bodies, i + 14),
        inertia: load_mat3(bodies, i + 17),
    }
}

// The 13 numbers at i as a state.
pub(crate) fn load_state(s: &[f64], i: usize) -> BodyState
    requires { i + MOVING ≤ length s.now }
    ensures { result ≡ state_at s.now i }
{
    BodyState {
        origin: load3(s, i),
        rotation: load4(s, i + 3),
        linear_velocity: load3(s, i + 7),
        angular_velocity: load3(s, i + 10),
    }
}

// What moves of a body: its momenta in the scratch, its velocities in a state.
fn store_moving(s: &mut [f64], i: usize, place: Vec3, rotation: Quat, linear: Vec3, angular: Vec3)
    requires { i + MOVING ≤ length s.old }
    ensures { (Kept (λ j. Out i MOVING j) s.old s.new) × (state_at s.new i ≡ state_with place rotation linear angular) }
{
    store3(s, i, place);
    store4(s, i + 3, rotation);
    store3(s, i + 7, linear);
    store3(s, i + 10, angular);
}

pub(crate) fn store_state(s: &mut [f64], i: usize, state: BodyState)
    requires { i + MOVING ≤ length s.old }
    ensures { (Kept (λ j. Out i MOVING j) s.old s.new) × (state_at s.new i ≡ state) }
{
    store_moving(
        s,
        i,
        state.origin,
        state.rotation,
        state.linear_velocity,
        state.angular_velocity,
    );
}

// What does not move: mass, local centre and inverse inertia.
fn store_fixed(s: &mut [f64], i: usize, body: MomentumBody)
    requires { i + MOVING ≤ length s.old }
    ensures { (Kept (λ j. Out i MOVING j) s.old s.new) × (fixed_at s.new i ≡ fixed_of body) }
{
    store3(s, i + 1, body.center_of_mass);
    store_mat3(s, i + 4, body.inverse_inertia);
    s[i] = body.mass;
}

pub(crate) fn store_start(s: &mut Scratch, k: usize, body: MomentumBody)
    requires { k < BODIES_MOST }
    ensures { (Kept (λ j. Out (START + RECORD * k) RECORD j) s.old s.new) × (start_body_at s.new k ≡ held_of body) }
{
    let i = START + RECORD * k;
    store_moving(s, i, body.center, body.rotation, body.momentum, body.spin);
    store_fixed(s, i + MOVING, body);
}

pub(crate) fn store_candidate(s: &mut Scratch, k: usize, body: MomentumBody)
    requires { k < BODIES_MOST }
    ensures { (Kept (λ j. Out (CANDIDATE + MOVING * k) MOVING j) s.old s.new)
        × (candidate_at s.new k ≡ moved_to body (start_body_at s.old k)) }
{
    let i = CANDIDATE + MOVING * k;
    store_moving(s, i, body.center, body.rotation, body.momentum, body.spin);
}

// The body whose moving numbers stand at i; mass and inertia are those of the start.
fn load_body(s: &Scratch, i: usize, k: usize) -> MomentumBody
    requires { (i + MOVING ≤ length s.now) × (k < BODIES_MOST) }
    ensures { result ≡ body_from s.now i (START + RECORD * k) }
{
    let j = START + RECORD * k;
    MomentumBody {
        center: load3(s, i),
        rotation: load4(s, i + 3),
        momentum: load3(s, i + 7),
        spin: load3(s, i + 10),
        mass: s[j + 13],
        center_of_mass: load3(s, j + 14),
        inverse_inertia: load_mat3(s, j + 17),
    }
}

pub(crate) fn load_start(s: &Scratch, k: usize) -> MomentumBody
    requires { k < BODIES_MOST }
    ensures { result ≡ start_body_at s.now k }
{
    load_body(s, START + RECORD * k, k)
}

pub(crate) fn load_candidate(s: &Scratch, k: usize) -> MomentumBody
    requires { k < BODIES_MOST }
    ensures { result ≡ candidate_at s.now k }
{
    load_body(s, CANDIDATE + MOVING * k, k)
}

// Whether every resulting origin is on the plan's ground. The states stand where the candidates were.
pub(crate) fn in_ground(s: &Scratch, body_count: usize) -> bool
    requires { body_count ≤ BODIES_MOST }
    ensures { result ≡ every body_count (λ k. within_of (vec3_at s.now (CANDIDATE + MOVING * k)) (ratio 8192 1)) }
{
    (0..body_count).all(|k| within(load3(s, CANDIDATE + MOVING * k), 8192.0))
}

// Hands the states back: the first 13 numbers of each record.
pub(crate) fn write_states(bodies: &mut [f64], s: &Scratch, body_count: usize)
    requires { (RECORD * body_count ≤ length bodies.old) × (body_count ≤ BODIES_MOST) }
    ensures { Handed body_count s.now bodies.old bodies.new }
{
    for k in 0..body_count {
        store_state(bodies, RECORD * k, load_state(s, CANDIDATE + MOVING * k));
    }
}
