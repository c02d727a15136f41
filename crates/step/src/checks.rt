// Refusals 1 to 9 of SPECIFICATION §7: each number over all bodies or joints before the next.
ghost use Rattle.std.specs.Prelude.{◌≡◌, length};
ghost use Rattle.arith.specs.Real.{is_finite};
ghost use Rattle.arith.specs.Flow.{every};
ghost use Rattle.rows.specs.Motions.{motions_of};
ghost use Rattle.rows.specs.View.{at};
ghost use Rattle.step.specs.Records.{count_of_bodies, record_at};
ghost use Rattle.step.specs.Checks.{within_of, time_step_ok, bodies_fit, mass_in_range, body_in_range, has_inverse, joins_two, frame_ok};
ghost use Rattle.step.specs.Checks.{length_ok, swing_ok, twist_ok, cone_ok, turning_ok, motions_ok, joint_ok, joint_in};
ghost use Rattle.step.specs.Checks.{sizes_or, bodies_or, joints_or, refusal_of};

use crate::Refusal;
use crate::bodies::load_record;
use crate::layout::{RECORD, SCRATCH};
use arith::angle::PI;
use arith::number::{abs, is_finite};
use rows::body::RigidBody;
use rows::geometry::{Cone, Joint, JointFrame, Kind, Motions, Turning, motions_of};
use vectors::matrix::inverse_spd;
use vectors::vector::Vec3;

// Whether no coordinate is above the limit in magnitude.
pub(crate) fn within(v: Vec3, limit: f64) -> bool
    ensures { result ≡ within_of v limit }
{
    abs(v.x) <= limit && abs(v.y) <= limit && abs(v.z) <= limit
}

fn all_finite(bodies: &[f64]) -> bool
    ensures { result ≡ every (length bodies.now) (λ k. is_finite (at bodies.now k)) }
{
    bodies.iter().all(|x| is_finite(*x))
}

// Mass from 2^-10 to 2^20.
#[tactic(auto, using(arith::specs::Literals::literals))]
fn mass_in_range(mass: f64) -> bool
    ensures { result ≡ mass_in_range mass }
{
    mass >= 0.0009765625 && mass <= 1048576.0
}

#[tactic(auto, using(arith::specs::Literals::literals))]
fn body_in_range(body: RigidBody) -> bool
    ensures { result ≡ body_in_range body }
{
    within(body.origin, 8192.0)
        && within(body.center_of_mass, 64.0)
        && mass_in_range(body.mass)
        && body.rotation.is_normalized()
}

fn bodies_in_range(bodies: &[f64]) -> bool
    ensures { result ≡ every (count_of_bodies bodies.now) (λ k. body_in_range (record_at bodies.now k)) }
{
    (0..bodies.len() / RECORD).all(|k| body_in_range(load_record(bodies, k)))
}

fn has_inverse(body: RigidBody) -> bool
    ensures { result ≡ has_inverse body }
{
    inverse_spd(body.inertia).is_ok()
}

fn inertias_invert(bodies: &[f64]) -> bool
    ensures { result ≡ every (count_of_bodies bodies.now) (λ k. has_inverse (record_at bodies.now k)) }
{
    (0..bodies.len() / RECORD).all(|k| has_inverse(load_record(bodies, k)))
}

fn joins_two(joint: Joint, body_count: usize) -> bool
    ensures { result ≡ joins_two body_count joint }
{
    joint.body_a < body_count && joint.body_b < body_count && joint.body_a != joint.body_b
}

fn joints_join(joints: &[Joint], body_count: usize) -> bool
    ensures { result ≡ every (length joints.now) (λ k. joins_two body_count (joint_in joints.now k)) }
{
    joints.iter().all(|joint| joins_two(*joint, body_count))
}

#[tactic(auto, using(arith::specs::Literals::literals))]
fn frame_ok(frame: JointFrame) -> bool
    ensures { result ≡ frame_ok frame }
{
    frame.local_anchor.is_finite()
        && within(frame.local_anchor, 64.0)
        && frame.local_rotation.is_normalized()
}

// From 1/8 to 8,192. A length that is not finite is in no range.
#[tactic(auto, using(arith::specs::Literals::literals))]
fn length_ok(length: f64) -> bool
    ensures { result ≡ length_ok length }
{
    length >= 0.125 && length <= 8192.0
}

#[tactic(auto, using(arith::specs::Literals::literals))]
fn swing_ok(swing: f64) -> bool
    ensures { result ≡ swing_ok swing }
{
    swing == 0.0 || swing == PI
}

// Equal limits, or a free twist, each within 4.
#[tactic(auto, using(arith::specs::Literals::literals))]
fn twist_ok(lower: f64, upper: f64) -> bool
    ensures { result ≡ twist_ok lower upper }
{
    abs(lower) <= 4.0 && abs(upper) <= 4.0 && (lower == upper || lower <= -PI && upper >= PI)
}

fn cone_ok(cone: Cone) -> bool
    ensures { result ≡ cone_ok cone }
{
    swing_ok(cone.swing_x) && swing_ok(cone.swing_y) && twist_ok(cone.twist_lower, cone.twist_upper)
}

fn turning_ok(turning: Turning) -> bool
    ensures { result ≡ turning_ok turning }
{
    match turning {
        Turning::Free => true,
        Turning::Align => true,
        Turning::Cone(cone) => cone_ok(cone),
    }
}

fn kind_ok(kind: Kind) -> bool
    ensures { result ≡ motions_ok (motions_of kind) }
{
    match motions_of(kind) {
        Motions::Rod(length) => length_ok(length),
        Motions::Frame(_, turning) => turning_ok(turning),
    }
}

fn joint_ok(joint: Joint) -> bool
    ensures { result ≡ joint_ok joint }
{
    frame_ok(joint.frame_a) && frame_ok(joint.frame_b) && kind_ok(joint.kind)
}

fn joints_ok(joints: &[Joint]) -> bool
    ensures { result ≡ every (length joints.now) (λ k. joint_ok (joint_in joints.now k)) }
{
    joints.iter().all(|joint| joint_ok(*joint))
}

// Refusals 5 to 7.
#[tactic(auto, unfolding(crate::specs::Checks::bodies_or, arith::specs::Flow::and_then))]
fn body_refusal(bodies: &[f64]) -> Result<(), Refusal>
    ensures { result ≡ bodies_or bodies.now (count_of_bodies bodies.now) }
{
    if !all_finite(bodies) {
        return Err(Refusal::NotFinite);
    }
    if !bodies_in_range(bodies) {
        return Err(Refusal::OutOfRange);
    }
    if !inertias_invert(bodies) {
        return Err(Refusal::Inertia);
    }
    Ok(())
}

// Refusals 8 and 9.
#[tactic(auto, unfolding(crate::specs::Checks::joints_or, arith::specs::Flow::and_then))]
fn joint_refusal(joints: &[Joint], body_count: usize) -> Result<(), Refusal>
    ensures { result ≡ joints_or joints.now (length joints.now) body_count }
{
    if !joints_join(joints, body_count) {
        return Err(Refusal::JointBodies);
    }
    if !joints_ok(joints) {
        return Err(Refusal::JointNumbers);
    }
    Ok(())
}

fn time_step_ok(dt: f64) -> bool
    ensures { result ≡ time_step_ok dt }
{
    is_finite(dt) && dt > 0.0
}

fn bodies_fit(doubles: usize) -> bool
    ensures { result ≡ bodies_fit doubles }
{
    doubles % RECORD == 0 && doubles / RECORD <= 16
}

// The refusal by numbers and lengths alone, 1 to 4.
#[tactic(auto, unfolding(crate::specs::Checks::sizes_or, arith::specs::Flow::and_then))]
fn size_refusal(doubles: usize, count: usize, dt: f64, scratch: usize) -> Result<(), Refusal>
    ensures { result ≡ sizes_or doubles count dt scratch }
{
    if !time_step_ok(dt) {
        return Err(Refusal::TimeStep);
    }
    if !bodies_fit(doubles) {
        return Err(Refusal::Bodies);
    }
    if 16 < count {
        return Err(Refusal::Joints);
    }
    if scratch < SCRATCH {
        return Err(Refusal::Scratch);
    }
    Ok(())
}

#[tactic(auto, unfolding(crate::specs::Checks::refusal_of, arith::specs::Flow::and_then))]
pub(crate) fn refusal(
    bodies: &[f64],
    joints: &[Joint],
    dt: f64,
    scratch: usize,
) -> Result<(), Refusal>
    ensures { result ≡ refusal_of bodies.now joints.now (length joints.now) dt scratch }
{
    size_refusal(bodies.len(), joints.len(), dt, scratch)?;
    body_refusal(bodies)?;
    joint_refusal(joints, bodies.len() / RECORD)
}
