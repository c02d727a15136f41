// A body with its momenta, as the solver moves it (body.rs).
ghost use Rattle.std.specs.Prelude.{◌≡◌};
ghost use Rattle.arith.specs.Flow.{loop};
ghost use Rattle.rows.specs.Fault.{try_finite, try_length, try_rotate};
ghost use Rattle.rows.specs.Body.{new_of, inverse_angular_mass_of, omega_of, kick_of, anchor_of, placed_at, pass_of, settled, drift_of};
ghost use Rattle.rows.specs.Body.{origin_of, state_of};
ghost use Rattle.rows.specs.Unit.{UnitOf, unit_of, try_rotate_as_unit, in_frame, integrate_as_unit, world_center_as_unit};
ghost use Rattle.rows.specs.Answer.{flow_as};

use arith::fault::CollisionError;
use std::ops::ControlFlow;
use vectors::matrix::Mat3;
use vectors::quaternion::Quat;
use vectors::vector::Vec3;

const MAX_ITERATIONS: usize = 32;

// The record of a body: what a plan gives, and what a step reads.
#[derive(Clone, Copy)]
pub struct RigidBody {
    pub origin: Vec3,
    pub rotation: Quat,
    pub linear_velocity: Vec3,
    pub angular_velocity: Vec3,
    pub mass: f64,
    pub center_of_mass: Vec3,
    pub inertia: Mat3,
}

// The numbers of a record that a step changes.
#[derive(Clone, Copy)]
pub struct BodyState {
    pub origin: Vec3,
    pub rotation: Quat,
    pub linear_velocity: Vec3,
    pub angular_velocity: Vec3,
}

#[derive(Clone, Copy)]
pub struct MomentumBody {
    pub center: Vec3,
    pub rotation: Quat,
    pub momentum: Vec3,
    pub spin: Vec3,
    pub mass: f64,
    pub center_of_mass: Vec3,
    pub inverse_inertia: Mat3,
}

// A body, and what its rotation normalizes to.
#[derive(Clone, Copy)]
struct Oriented {
    body: MomentumBody,
    unit: Quat,
    ghost unit_is: { UnitOf body.rotation unit },
}

// The vector, if it is finite.
#[tactic(auto, unfolding(crate::specs::Fault::try_finite))]
pub fn finite(value: Vec3) -> Result<Vec3, CollisionError>
    ensures { result ≡ try_finite value }
{
    if value.is_finite() {
        return Ok(value);
    }
    Err(CollisionError::ArithmeticOverflow)
}

pub(crate) fn length(value: Vec3) -> Result<f64, CollisionError>
    ensures { result ≡ try_length value }
{
    value
        .checked_length()
        .ok_or(CollisionError::ArithmeticOverflow)
}

pub(crate) fn rotate(rotation: Quat, value: Vec3) -> Result<Vec3, CollisionError>
    ensures { result ≡ try_rotate rotation value }
{
    rotation
        .rotate_vector(value)
        .ok_or(CollisionError::ArithmeticOverflow)
}

// In the Rust each turn normalizes the rotation for itself. Here that is done once for a body or a joint and handed on as
// `unit`, with the same bits.
pub(crate) fn unit_of(rotation: Quat) -> Result<Quat, CollisionError>
    ensures { result ≡ unit_of rotation }
{
    rotation
        .try_normalize()
        .ok_or(CollisionError::ArithmeticOverflow)
}

// `rotate` by a rotation already normalized.
pub(crate) fn rotate_as_unit(unit: Quat, value: Vec3) -> Result<Vec3, CollisionError>
    ensures { result ≡ try_rotate_as_unit unit value }
{
    unit.rotate_as_unit(value)
        .ok_or(CollisionError::ArithmeticOverflow)
}

fn integrate_as_unit(unit: Quat, omega: Vec3, dt: f64) -> Result<Quat, CollisionError>
    ensures { result ≡ integrate_as_unit unit omega dt }
{
    unit.integrate_as_unit(omega, dt)
        .ok_or(CollisionError::ArithmeticOverflow)
}

// A vector of the world, turned into a body's frame, a matrix of that frame applied, and turned back.
#[tactic(auto, unfolding(crate::specs::Unit::in_frame, arith::specs::Flow::and_then))]
fn in_frame(unit: Quat, matrix: Mat3, vector: Vec3) -> Result<Vec3, CollisionError>
    ensures { result ≡ in_frame unit matrix vector }
{
    let local = rotate_as_unit(unit.conjugate(), vector)?;
    rotate_as_unit(unit, matrix.apply(local))
}

// Origin plus rotated local centre.
#[tactic(auto, unfolding(crate::specs::Unit::world_center_as_unit, arith::specs::Flow::and_then))]
fn world_center_of_mass(
    origin: Vec3,
    unit: Quat,
    center_of_mass: Vec3,
) -> Result<Vec3, CollisionError>
    ensures { result ≡ world_center_as_unit origin unit center_of_mass }
{
    let turned = rotate_as_unit(unit, center_of_mass)?;
    finite(turned.add(origin))
}

impl MomentumBody {
    // The body of a record. That its inertia has an inverse was tested before any body is made (refusal 7).
    #[tactic(auto, using(crate::proofs::UnitLaws::new_by_unit), unfolding(arith::specs::Flow::and_then))]
    pub fn new(body: RigidBody, inverse_inertia: Mat3) -> Result<MomentumBody, CollisionError>
        ensures { result ≡ new_of body inverse_inertia }
    {
        let unit = unit_of(body.rotation)?;
        let spin = in_frame(unit, body.inertia, body.angular_velocity)?;
        let momentum = finite(body.linear_velocity.scale(body.mass))?;
        let center = world_center_of_mass(body.origin, unit, body.center_of_mass)?;
        Ok(MomentumBody {
            center,
            rotation: body.rotation,
            momentum,
            spin,
            mass: body.mass,
            center_of_mass: body.center_of_mass,
            inverse_inertia,
        })
    }

    #[tactic(auto, using(crate::proofs::UnitLaws::mass_by_unit), unfolding(arith::specs::Flow::and_then))]
    fn inverse_angular_mass(self, spin: Vec3) -> Result<Vec3, CollisionError>
        ensures { result ≡ inverse_angular_mass_of self spin }
    {
        let unit = unit_of(self.rotation)?;
        in_frame(unit, self.inverse_inertia, spin)
    }

    pub fn omega(self) -> Result<Vec3, CollisionError>
        ensures { result ≡ omega_of self }
    {
        self.inverse_angular_mass(self.spin)
    }

    #[tactic(auto, unfolding(crate::specs::Body::kick_of, arith::specs::Flow::and_then))]
    pub fn kick(self, linear: Vec3, angular: Vec3) -> Result<MomentumBody, CollisionError>
        ensures { result ≡ kick_of self linear angular }
    {
        let momentum = finite(self.momentum.add(linear))?;
        let spin = finite(self.spin.add(angular))?;
        Ok(MomentumBody {
            momentum,
            spin,
            ..self
        })
    }

    #[tactic(auto, unfolding(crate::specs::Body::anchor_of, arith::specs::Flow::and_then))]
    pub(crate) fn anchor(self, local: Vec3) -> Result<Vec3, CollisionError>
        ensures { result ≡ anchor_of self local }
    {
        let arm = rotate(self.rotation, local.sub(self.center_of_mass))?;
        finite(self.center.add(arm))
    }

    fn placed_at(self, center: Vec3, rotation: Quat) -> MomentumBody
        ensures { result ≡ placed_at self center rotation }
    {
        MomentumBody {
            center,
            rotation,
            ..self
        }
    }

    #[tactic(auto, using(crate::proofs::UnitLaws::drift_by_unit), unfolding(arith::specs::Flow::and_then))]
    pub fn drift(self, dt: f64) -> Result<MomentumBody, CollisionError>
        ensures { result ≡ drift_of self dt }
    {
        let center = finite(self.center.add(self.momentum.scale(dt / self.mass)))?;
        let unit = unit_of(self.rotation)?;
        let omega = in_frame(unit, self.inverse_inertia, self.spin)?;
        let rotation = Oriented { body: self, unit }.settle(omega, dt)?;
        Ok(self.placed_at(center, rotation))
    }

    // The state that the body hands back. The transform keeps its old bits where the new one compares equal.
    #[tactic(auto, using(crate::proofs::UnitLaws::state_by_unit), unfolding(arith::specs::Flow::and_then))]
    pub fn state(self, old: BodyState) -> Result<BodyState, CollisionError>
        ensures { result ≡ state_of self old }
    {
        let unit = unit_of(self.rotation)?;
        let origin = Oriented { body: self, unit }.origin()?;
        let linear_velocity = finite(self.momentum.div(self.mass))?;
        let angular_velocity = in_frame(unit, self.inverse_inertia, self.spin)?;
        if origin == old.origin && self.rotation == old.rotation {
            return Ok(BodyState {
                linear_velocity,
                angular_velocity,
                ..old
            });
        }
        Ok(BodyState {
            origin,
            rotation: self.rotation,
            linear_velocity,
            angular_velocity,
        })
    }
}

impl Oriented {
    // One pass of the search for the half-step angular velocity, from the rotation at entry: the next one, or the rotation at
    // the end of the step.
    #[tactic(auto, using(crate::proofs::UnitLaws::halves), unfolding(crate::specs::Body::pass_of, arith::specs::Flow::and_then))]
    fn pass(self, omega: Vec3, dt: f64) -> Result<ControlFlow<Quat, Vec3>, CollisionError>
        ensures { flow_as result ≡ pass_of self.body dt omega }
    {
        let half = integrate_as_unit(self.unit, omega, dt * 0.5)?;
        let next = self.body.placed_at(self.body.center, half).omega()?;
        let residual = length(next.sub(omega))?;
        let size = length(next)?;
        if residual <= 1.0e-14 * (1.0 + size) {
            let rotation = integrate_as_unit(self.unit, next, dt)?;
            return Ok(ControlFlow::Break(rotation));
        }
        Ok(ControlFlow::Continue(next))
    }

    // Implicit rotational midpoint with constant world spin momentum: at most 32 passes.
    fn settle(self, start: Vec3, dt: f64) -> Result<Quat, CollisionError>
        ensures { result ≡ settled (loop 32 (λ k. pass_of self.body dt) start) }
    {
        let mut omega = start;
        for _ in 0..MAX_ITERATIONS {
            match self.pass(omega, dt)? {
                ControlFlow::Continue(next) => omega = next,
                ControlFlow::Break(rotation) => return Ok(rotation),
            }
        }
        Err(CollisionError::NonConvergent)
    }

    // The origin of the body, where `Transform::new` and `set_transform` take it.
    #[tactic(auto, using(crate::proofs::UnitLaws::origins), unfolding(arith::specs::Flow::and_then))]
    fn origin(self) -> Result<Vec3, CollisionError>
        ensures { result ≡ origin_of self.body }
    {
        let turned = rotate_as_unit(self.unit, self.body.center_of_mass)?;
        let origin = finite(self.body.center.sub(turned))?;
        if !self.body.rotation.is_normalized() {
            return Err(CollisionError::ArithmeticOverflow);
        }
        finite(turned.add(origin))?;
        Ok(origin)
    }
}
