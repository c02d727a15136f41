// A quaternion (x, y, z, w) of doubles as a rotation. `a.product(b)` turns by b first, then by a.
ghost use Rattle.std.specs.Prelude.{◌≡◌};
ghost use Rattle.vectors.specs.Quaternion.{conjugate_of, product_of, quat_length_squared_of, quat_length_of, quat_div_of};
ghost use Rattle.vectors.specs.Quaternion.{quat_largest_of, quat_try_normalize_of, quat_finite_of, is_normalized_of, rotate_vector_of};
ghost use Rattle.vectors.specs.Quaternion.{rotated_of, turned_of, to_mat3_of, columns_of};
ghost use Rattle.vectors.specs.Answered.{rotate_as_unit_of, integrate_as_unit_of};
ghost use Rattle.vectors.specs.Quaternion.{delta_in, delta_of, small_turn};

use crate::matrix::Mat3;
use crate::normal::{Normal, normalize};
use crate::vector::Vec3;
use arith::angle::sin_cos;
use arith::number::{abs, is_finite, max};
use arith::root::hypot;

// 2^-44: how far the squares of a rotation may sum from 1.
const ROTATION_TOLERANCE: f64 = 5.684341886080802e-14;

#[derive(Clone, Copy, PartialEq)]
pub struct Quat {
    pub x: f64,
    pub y: f64,
    pub z: f64,
    pub w: f64,
}

impl Quat {
    pub fn conjugate(self) -> Quat
        ensures { result ≡ conjugate_of self }
    {
        Quat {
            x: -self.x,
            y: -self.y,
            z: -self.z,
            w: self.w,
        }
    }

    pub fn product(self, rhs: Quat) -> Quat
        ensures { result ≡ product_of self rhs }
    {
        Quat {
            x: self.w * rhs.x + self.x * rhs.w + self.y * rhs.z - self.z * rhs.y,
            y: self.w * rhs.y - self.x * rhs.z + self.y * rhs.w + self.z * rhs.x,
            z: self.w * rhs.z + self.x * rhs.y - self.y * rhs.x + self.z * rhs.w,
            w: self.w * rhs.w - self.x * rhs.x - self.y * rhs.y - self.z * rhs.z,
        }
    }

    fn length_squared(self) -> f64
        ensures { result ≡ quat_length_squared_of self }
    {
        self.x * self.x + self.y * self.y + self.z * self.z + self.w * self.w
    }

    pub fn try_normalize(self) -> Option<Quat>
        ensures { result ≡ quat_try_normalize_of self }
    {
        normalize(self)
    }

    // Refusal 6's test of a rotation. It stands in for the test of the length in the Rust.
    #[tactic(auto, using(arith::specs::Literals::literals), unfolding(crate::specs::Quaternion::is_normalized_of))]
    pub fn is_normalized(self) -> bool
        ensures { result ≡ is_normalized_of self }
    {
        if self.is_finite() {
            return abs(self.length_squared() - 1.0) <= ROTATION_TOLERANCE;
        }
        false
    }

    // The vector turned, or nothing where an argument does not serve or the result overflows.
    #[tactic(auto, unfolding(crate::specs::Quaternion::rotate_vector_of))]
    pub fn rotate_vector(self, vector: Vec3) -> Option<Vec3>
        ensures { result ≡ rotate_vector_of self vector }
    {
        if !vector.is_finite() {
            return None;
        }
        self.try_normalize()?.rotated(vector)
    }

    // `rotate_vector` of every quaternion that normalizes to self. Who turns several vectors normalizes once.
    #[tactic(auto, unfolding(crate::specs::Answered::rotate_as_unit_of))]
    pub fn rotate_as_unit(self, vector: Vec3) -> Option<Vec3>
        ensures { result ≡ rotate_as_unit_of self vector }
    {
        if vector.is_finite() {
            return self.rotated(vector);
        }
        None
    }

    // A finite vector turned by a quaternion already normalized, unless that overflows.
    fn rotated(self, vector: Vec3) -> Option<Vec3>
        ensures { result ≡ rotated_of self vector }
    {
        let rotated = self.turned(vector);
        if rotated.is_finite() {
            return Some(rotated);
        }
        None
    }

    // v + (u × v) (2 w) + (u × (u × v)) 2, for a quaternion already normalized.
    fn turned(self, vector: Vec3) -> Vec3
        ensures { result ≡ turned_of self vector }
    {
        let vector_part = Vec3::new(self.x, self.y, self.z);
        let first_cross = vector_part.cross(vector);
        vector
            .add(first_cross.scale(2.0 * self.w))
            .add(vector_part.cross(first_cross).scale(2.0))
    }

    // The matrix of the same rotation.
    #[tactic(auto, unfolding(crate::specs::Quaternion::to_mat3_of))]
    pub fn to_mat3(self) -> Option<Mat3>
        ensures { result ≡ to_mat3_of self }
    {
        Some(self.try_normalize()?.columns())
    }

    // The matrix of a quaternion already normalized.
    #[tactic(auto, using(arith::specs::Literals::literals))]
    fn columns(self) -> Mat3
        ensures { result ≡ columns_of self }
    {
        let x = self.x;
        let y = self.y;
        let z = self.z;
        let w = self.w;
        Mat3::new([
            [
                1.0 - 2.0 * (y * y + z * z),
                2.0 * (x * y + z * w),
                2.0 * (x * z - y * w),
            ],
            [
                2.0 * (x * y - z * w),
                1.0 - 2.0 * (x * x + z * z),
                2.0 * (y * z + x * w),
            ],
            [
                2.0 * (x * z + y * w),
                2.0 * (y * z - x * w),
                1.0 - 2.0 * (x * x + y * y),
            ],
        ])
    }

    // This rotation after `angular_velocity` of the world has turned it for the time dt: the Rust's
    // `integrate_world_angular_velocity`, of every quaternion that normalizes to self.
    #[tactic(auto, unfolding(crate::specs::Answered::integrate_as_unit_of))]
    pub fn integrate_as_unit(self, angular_velocity: Vec3, dt: f64) -> Option<Quat>
        ensures { result ≡ integrate_as_unit_of self angular_velocity dt }
    {
        turn_in(angular_velocity, dt)?.product(self).try_normalize()
    }
}

impl Normal for Quat {
    ghost finite = { quat_finite_of };

    ghost largest_in = { quat_largest_of };

    ghost divided = { quat_div_of };

    ghost length_in = { quat_length_of };

    fn is_finite(self) -> bool {
        is_finite(self.x) && is_finite(self.y) && is_finite(self.z) && is_finite(self.w)
    }

    fn largest(self) -> f64 {
        max(max(max(abs(self.x), abs(self.y)), abs(self.z)), abs(self.w))
    }

    fn div(self, k: f64) -> Quat {
        Quat {
            x: self.x / k,
            y: self.y / k,
            z: self.z / k,
            w: self.w / k,
        }
    }

    fn length(self) -> f64 {
        hypot(hypot(hypot(self.x, self.y), self.z), self.w)
    }
}

// The turn that an angular velocity makes in the time dt.
fn turn_in(angular_velocity: Vec3, dt: f64) -> Option<Quat>
    ensures { result ≡ delta_in angular_velocity dt }
{
    if !angular_velocity.is_finite() || !is_finite(dt) {
        return None;
    }
    turn_of(angular_velocity.scale(dt))
}

// The turn about a rotation vector by its length. Nothing where that is not finite, or where half of
// it is above 4 (the half angle rule).
#[tactic(auto, using(arith::specs::Literals::literals), unfolding(crate::specs::Quaternion::delta_of))]
fn turn_of(rotation_vector: Vec3) -> Option<Quat>
    ensures { result ≡ delta_of rotation_vector }
{
    if !rotation_vector.is_finite() {
        return None;
    }
    let angle = rotation_vector.length();
    if !is_finite(angle) {
        return None;
    }
    if angle < 1.0e-8 {
        return Some(small_turn(rotation_vector, angle));
    }
    let turn = sin_cos(angle * 0.5).ok()?;
    let axis = rotation_vector.div(angle);
    Some(Quat {
        x: axis.x * turn.s,
        y: axis.y * turn.s,
        z: axis.z * turn.s,
        w: turn.c,
    })
}

// Below 1e-8 radians no sine is taken.
#[tactic(auto, using(arith::specs::Literals::literals))]
fn small_turn(rotation_vector: Vec3, angle: f64) -> Quat
    ensures { result ≡ small_turn rotation_vector angle }
{
    let angle_squared = angle * angle;
    Quat {
        x: rotation_vector.x * (0.5 - angle_squared / 48.0),
        y: rotation_vector.y * (0.5 - angle_squared / 48.0),
        z: rotation_vector.z * (0.5 - angle_squared / 48.0),
        w: 1.0 - angle_squared / 8.0,
    }
}
