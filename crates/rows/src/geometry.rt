// Joints and their equality rows (geometry.rs). A row lies in the lent slice as 14 doubles: the linear and
// the angular part of a, those of b, value and tolerance. The bodies that it joins are kept beside the slice.
ghost use Rattle.std.specs.Prelude.{◌≡◌, ℕ, ◌+◌, ◌*◌, ◌≤◌, length, Ok};
ghost use Rattle.arith.specs.Real.{ratio};
ghost use Rattle.rows.specs.Motions.{motions_of};
ghost use Rattle.rows.specs.Geometry.{turning, ends_of, tolerance_of, distance_row, linear_row, row_if, axes_of, linear_rows};
ghost use Rattle.rows.specs.Geometry.{any_locked, half_turned, relative_of, swing_x, swing_y, local_of, gradient_row, swing_locked, swing_row};
ghost use Rattle.rows.specs.Geometry.{twist_locked, twist_row, cone_rows, aligned_of, align_row, align_rows, turning_rows, finite_values};
ghost use Rattle.rows.specs.Geometry.{frame_rows, write_equality_rows};
ghost use Rattle.rows.specs.Count.{linear_count, turning_count, row_count};
ghost use Rattle.rows.specs.View.{vec3_at, row_at, rows_at, Out, Kept};
ghost use Rattle.rows.specs.Answer.{Writes};
ghost use Rattle.rows.specs.Unit.{UnitOf};
ghost use Rattle.rows.specs.Append.{Stored2, listed, Appends, Adds, Filled};

use crate::body::{MomentumBody, finite, length, rotate, rotate_as_unit, unit_of};
use arith::angle::{PI, atan2, rem_tau};
use arith::fault::CollisionError;
use arith::number::{abs, is_finite, max};
use arith::root::sqrt;
use vectors::quaternion::Quat;
use vectors::vector::Vec3;

// The doubles of a row, and where its value and its tolerance stand among them.
pub const ROW: usize = 14;

pub const VALUE: usize = 12;

pub const TOLERANCE: usize = 13;

// The doubles of six rows: no joint has more.
const SPACE: usize = 84;

const EPSILON: f64 = 2.220446049250313e-16;

// A connector frame in a body's local coordinates.
#[derive(Clone, Copy)]
pub struct JointFrame {
    pub local_anchor: Vec3,
    pub local_rotation: Quat,
}

#[derive(Clone, Copy)]
pub enum Kind {
    Ball,
    Hinge,
    Cylindrical,
    Planar,
    Distance(f64),
    ConeTwist {
        swing_x: f64,
        swing_y: f64,
        twist_lower: f64,
        twist_upper: f64,
    },
}

// Where b's anchor is held: at a's, on the line through it along frame a's Z, or on the plane through it across that.
#[derive(Drop)]
pub enum Linear {
    Point,
    Line,
    Plane,
}

// The numbers of a cone twist.
#[derive(Clone, Copy)]
pub struct Cone {
    pub swing_x: f64,
    pub swing_y: f64,
    pub twist_lower: f64,
    pub twist_upper: f64,
}

// How frame b turns against frame a: freely, with its Z along a's, or within a cone and a twist.
#[derive(Drop)]
pub enum Turning {
    Free,
    Align,
    Cone(Cone),
}

// What a kind holds: a rod between the anchors, or b's anchor and what turns.
#[derive(Drop)]
pub enum Motions {
    Rod(f64),
    Frame(Linear, Turning),
}

#[derive(Clone, Copy)]
pub struct Joint {
    pub body_a: usize,
    pub body_b: usize,
    pub frame_a: JointFrame,
    pub frame_b: JointFrame,
    pub kind: Kind,
}

#[derive(Clone, Copy)]
pub struct EqualityRow {
    pub a: usize,
    pub b: usize,
    pub linear_a: Vec3,
    pub angular_a: Vec3,
    pub linear_b: Vec3,
    pub angular_b: Vec3,
    pub value: f64,
    pub tolerance: f64,
}

// Both anchors, what leads from a's to b's, the arms from the centres to them, and both frames.
#[derive(Clone, Copy)]
struct Ends {
    pub pa: Vec3,
    pub pb: Vec3,
    pub delta: Vec3,
    pub arm_a: Vec3,
    pub arm_b: Vec3,
    pub frame_a: Quat,
    pub frame_b: Quat,
}

// The axes of frame a along which the anchors' difference is held.
#[derive(Drop)]
struct Axes {
    pub x: bool,
    pub y: bool,
    pub z: bool,
}

// The rotation of frame b seen from frame a, with w * w + z * z and its root.
#[derive(Clone, Copy)]
struct Relative {
    pub rotation: Quat,
    pub norm_squared: f64,
    pub norm: f64,
}

// What differs between the two swing rows.
#[derive(Drop)]
struct Swing {
    pub numerator: f64,
    pub gradient: Vec3,
    pub scalar: f64,
}

// What the rows of a joint share: its ends, frame a's rotation normalized, and the tolerance of the linear rows.
#[derive(Clone, Copy)]
struct Basis {
    joint: Joint,
    ends: Ends,
    unit: Quat,
    tolerance: f64,
    ghost unit_is: { UnitOf ends.frame_a unit },
    ghost tolerance_is: { Ok tolerance ≡ tolerance_of ends.pa ends.pb },
}

pub fn load3(s: &[f64], at: usize) -> Vec3
    requires { at + 3 ≤ length s.now }
    ensures { result ≡ vec3_at s.now at }
{
    Vec3 {
        x: s[at],
        y: s[at + 1],
        z: s[at + 2],
    }
}

pub fn store3(s: &mut [f64], at: usize, v: Vec3)
    requires { at + 3 ≤ length s.old }
    ensures { (Kept (λ k. Out at 3 k) s.old s.new) × (vec3_at s.new at ≡ v) }
{
    s[at] = v.x;
    s[at + 1] = v.y;
    s[at + 2] = v.z;
}

fn store2(s: &mut [f64], at: usize, value: f64, tolerance: f64)
    requires { at + 2 ≤ length s.old }
    ensures { Stored2 at value tolerance s.old s.new }
{
    s[at] = value;
    s[at + 1] = tolerance;
}

impl EqualityRow {
    fn store(self, s: &mut [f64], at: usize)
        requires { at + 14 ≤ length s.old }
        ensures { (Kept (λ k. Out at 14 k) s.old s.new) × (row_at s.new at self.a self.b ≡ self) }
    {
        store3(s, at, self.linear_a);
        store3(s, at + 3, self.angular_a);
        store3(s, at + 6, self.linear_b);
        store3(s, at + 9, self.angular_b);
        store2(s, at + VALUE, self.value, self.tolerance);
    }

    // A row of the scratch, which lies there by its caller's proof.
    pub fn load(s: &[f64], at: usize, a: usize, b: usize) -> EqualityRow
        requires { at + 14 ≤ length s.now }
        ensures { result ≡ row_at s.now at a b }
    {
        EqualityRow {
            a,
            b,
            linear_a: load3(s, at),
            angular_a: load3(s, at + 3),
            linear_b: load3(s, at + 6),
            angular_b: load3(s, at + 9),
            value: s[at + VALUE],
            tolerance: s[at + TOLERANCE],
        }
    }

    // A row that turns only, with the smallest tolerance.
    #[tactic(auto, using(arith::specs::Literals::literals))]
    fn turning(joint: Joint, angular_a: Vec3, angular_b: Vec3, value: f64) -> EqualityRow
        ensures { result ≡ turning joint angular_a angular_b value }
    {
        EqualityRow {
            a: joint.body_a,
            b: joint.body_b,
            linear_a: Vec3::ZERO,
            angular_a,
            linear_b: Vec3::ZERO,
            angular_b,
            value,
            tolerance: 1.0e-13,
        }
    }
}

#[tactic(auto, unfolding(crate::specs::Geometry::ends_of, arith::specs::Flow::and_then))]
fn ends_of(joint: Joint, a: MomentumBody, b: MomentumBody) -> Result<Ends, CollisionError>
    ensures { result ≡ ends_of joint a b }
{
    let pa = a.anchor(joint.frame_a.local_anchor)?;
    let pb = b.anchor(joint.frame_b.local_anchor)?;
    let delta = finite(pb.sub(pa))?;
    Ok(Ends {
        pa,
        pb,
        delta,
        arm_a: pa.sub(a.center),
        arm_b: pb.sub(b.center),
        frame_a: a.rotation.product(joint.frame_a.local_rotation),
        frame_b: b.rotation.product(joint.frame_b.local_rotation),
    })
}

// 32 epsilon times the anchors' lengths, at least 1e-13.
#[tactic(auto, unfolding(crate::specs::Geometry::tolerance_of, arith::specs::Flow::and_then))]
fn tolerance(pa: Vec3, pb: Vec3) -> Result<f64, CollisionError>
    ensures { result ≡ tolerance_of pa pb }
{
    let la = length(pa)?;
    let lb = length(pb)?;
    Ok(max(32.0 * EPSILON * (la + lb), 1.0e-13))
}

#[tactic(auto, unfolding(crate::specs::Geometry::distance_row, arith::specs::Flow::and_then))]
fn distance_row(joint: Joint, e: Ends, rod: f64) -> Result<EqualityRow, CollisionError>
    ensures { result ≡ distance_row joint e rod }
{
    let distance = length(e.delta)?;
    let axis = e
        .delta
        .try_normalize()
        .ok_or(CollisionError::NonConvergent)?;
    let tolerance = tolerance(e.pa, e.pb)?;
    Ok(EqualityRow {
        a: joint.body_a,
        b: joint.body_b,
        linear_a: axis.neg(),
        angular_a: e.arm_a.cross(axis).neg(),
        linear_b: axis,
        angular_b: e.arm_b.cross(axis),
        value: distance - rod,
        tolerance,
    })
}

// swing = relative * conjugate(normalize(relative.zw)).
fn swing_x(q: Quat) -> Swing
    ensures { result ≡ swing_x q }
{
    Swing {
        numerator: q.w * q.x - q.z * q.y,
        gradient: Vec3::new(q.w, -q.z, -q.y),
        scalar: q.x,
    }
}

fn swing_y(q: Quat) -> Swing
    ensures { result ≡ swing_y q }
{
    Swing {
        numerator: q.w * q.y + q.z * q.x,
        gradient: Vec3::new(q.z, q.w, q.x),
        scalar: q.y,
    }
}

// A gradient in the relative rotation as an angular velocity of frame a.
#[tactic(auto, using(arith::specs::Literals::literals))]
fn local_gradient(q: Quat, gradient: Vec3, scalar: f64) -> Vec3
    ensures { result ≡ local_of q gradient scalar }
{
    let vector = Vec3::new(q.x, q.y, q.z);
    gradient
        .scale(q.w)
        .add(vector.cross(gradient))
        .sub(vector.scale(scalar))
        .scale(0.5)
}

#[tactic(auto, using(arith::specs::Literals::literals))]
fn any_locked(cone: Cone) -> bool
    ensures { result ≡ any_locked cone }
{
    cone.swing_x == 0.0 || cone.swing_y == 0.0 || cone.twist_lower == cone.twist_upper
}

// A half turn has no twist, so nothing may be locked there.
#[tactic(auto, using(arith::specs::Literals::literals))]
fn half_turned(cone: Cone, norm_squared: f64) -> bool
    ensures { result ≡ half_turned cone norm_squared }
{
    norm_squared <= (64.0 * EPSILON) * (64.0 * EPSILON) && any_locked(cone)
}

#[tactic(auto, unfolding(crate::specs::Geometry::relative_of, arith::specs::Flow::and_then))]
fn relative_of(cone: Cone, frame_a: Quat, frame_b: Quat) -> Result<Relative, CollisionError>
    ensures { result ≡ relative_of cone frame_a frame_b }
{
    let q = unit_of(frame_a.conjugate().product(frame_b))?;
    let norm_squared = q.w * q.w + q.z * q.z;
    if half_turned(cone, norm_squared) {
        return Err(CollisionError::NonConvergent);
    }
    Ok(Relative {
        rotation: q,
        norm_squared,
        norm: sqrt(norm_squared),
    })
}

// The one match on a kind. All else about it follows from what it holds.
pub fn motions_of(kind: Kind) -> Motions
    ensures { result ≡ motions_of kind }
{
    match kind {
        Kind::Ball => Motions::Frame(Linear::Point, Turning::Free),
        Kind::Hinge => Motions::Frame(Linear::Point, Turning::Align),
        Kind::Cylindrical => Motions::Frame(Linear::Line, Turning::Align),
        Kind::Planar => Motions::Frame(Linear::Plane, Turning::Align),
        Kind::Distance(length) => Motions::Rod(length),
        Kind::ConeTwist {
            swing_x,
            swing_y,
            twist_lower,
            twist_upper,
        } => Motions::Frame(
            Linear::Point,
            Turning::Cone(Cone {
                swing_x,
                swing_y,
                twist_lower,
                twist_upper,
            }),
        ),
    }
}

fn axes_of(linear: Linear) -> Axes
    ensures { result ≡ axes_of linear }
{
    match linear {
        Linear::Point => Axes {
            x: true,
            y: true,
            z: true,
        },
        Linear::Line => Axes {
            x: true,
            y: true,
            z: false,
        },
        Linear::Plane => Axes {
            x: false,
            y: false,
            z: true,
        },
    }
}

// The row behind the n that stand there, and how many do then.
fn append(s: &mut [f64], at: usize, n: usize, row: Option<EqualityRow>) -> usize
    requires { at + 14 * n + 14 ≤ length s.old }
    ensures { Appends at n row s.old s.new result }
{
    let Some(row) = row else {
        return n;
    };
    row.store(s, at + ROW * n);
    n + 1
}

impl Basis {
    // The anchors' difference along an axis of frame a.
    #[tactic(auto, using(crate::proofs::UnitLaws::rotate_is), unfolding(crate::specs::Geometry::linear_row, arith::specs::Flow::and_then))]
    fn linear_row(self, local_axis: Vec3) -> Result<EqualityRow, CollisionError>
        ensures { result ≡ linear_row self.joint self.ends local_axis }
    {
        let e = self.ends;
        let axis = rotate_as_unit(self.unit, local_axis)?;
        let angular_a = finite(axis.cross(e.delta).sub(e.arm_a.cross(axis)))?;
        let angular_b = finite(e.arm_b.cross(axis))?;
        Ok(EqualityRow {
            a: self.joint.body_a,
            b: self.joint.body_b,
            linear_a: axis.neg(),
            angular_a,
            linear_b: axis,
            angular_b,
            value: e.delta.dot(axis),
            tolerance: self.tolerance,
        })
    }

    #[tactic(auto, unfolding(arith::specs::Flow::and_then))]
    fn linear_row_if(
        self,
        locked: bool,
        local_axis: Vec3,
    ) -> Result<Option<EqualityRow>, CollisionError>
        ensures { listed result ≡ row_if locked (linear_row self.joint self.ends local_axis) }
    {
        locked.then(|| self.linear_row(local_axis)).transpose()
    }

    // The Z axis of frame b. The aligning kinds refuse where the Z axes lead apart.
    #[tactic(auto, using(crate::proofs::UnitLaws::turns), unfolding(crate::specs::Geometry::aligned_of, arith::specs::Flow::and_then))]
    fn aligned(self) -> Result<Vec3, CollisionError>
        ensures { result ≡ aligned_of self.ends.frame_a self.ends.frame_b }
    {
        let z = rotate(self.ends.frame_b, Vec3::Z)?;
        let za = rotate_as_unit(self.unit, Vec3::Z)?;
        if za.dot(z) <= 1.0e-10 {
            return Err(CollisionError::NonConvergent);
        }
        Ok(z)
    }

    // The Z axis of frame b across an axis of frame a.
    #[tactic(auto, using(crate::proofs::UnitLaws::rotate_is), unfolding(crate::specs::Geometry::align_row, arith::specs::Flow::and_then))]
    fn align_row(self, local_axis: Vec3, z: Vec3) -> Result<EqualityRow, CollisionError>
        ensures { result ≡ align_row self.joint self.ends.frame_a local_axis z }
    {
        let axis = rotate_as_unit(self.unit, local_axis)?;
        let gradient = finite(axis.cross(z))?;
        Ok(EqualityRow::turning(self.joint, gradient, gradient.neg(), axis.dot(z)))
    }

    // A row along a gradient in the relative rotation.
    #[tactic(auto, using(crate::proofs::UnitLaws::rotate_is), unfolding(crate::specs::Geometry::gradient_row, arith::specs::Flow::and_then))]
    fn gradient_row(
        self,
        relative: Quat,
        gradient: Vec3,
        scalar: f64,
        value: f64,
    ) -> Result<EqualityRow, CollisionError>
        ensures { result ≡ gradient_row self.joint self.ends.frame_a relative gradient scalar value }
    {
        let angular = rotate_as_unit(self.unit, local_gradient(relative, gradient, scalar))?;
        Ok(EqualityRow::turning(self.joint, angular.neg(), angular, value))
    }

    #[tactic(auto, using(arith::specs::Literals::literals), unfolding(crate::specs::Geometry::swing_row))]
    fn swing_row(self, r: Relative, swing: Swing) -> Result<EqualityRow, CollisionError>
        ensures { result ≡ swing_row self.joint self.ends.frame_a r swing }
    {
        let q = r.rotation;
        let value = 2.0 * swing.numerator / r.norm;
        let cubed = r.norm_squared * r.norm;
        let gradient = swing
            .gradient
            .scale(2.0 / r.norm)
            .sub(Vec3::Z.scale(2.0 * swing.numerator * q.z / cubed));
        let scalar = 2.0 * swing.scalar / r.norm - 2.0 * swing.numerator * q.w / cubed;
        self.gradient_row(q, gradient, scalar, value)
    }

    #[tactic(auto, using(arith::specs::Literals::literals), unfolding(arith::specs::Flow::and_then))]
    fn swing_row_if(
        self,
        limit: f64,
        r: Relative,
        swing: Swing,
    ) -> Result<Option<EqualityRow>, CollisionError>
        ensures { listed result ≡ row_if (swing_locked limit) (swing_row self.joint self.ends.frame_a r swing) }
    {
        (limit == 0.0).then(|| self.swing_row(r, swing)).transpose()
    }

    #[tactic(auto, using(arith::specs::Literals::literals), unfolding(crate::specs::Geometry::twist_row, arith::specs::Flow::and_then))]
    fn twist_row(self, r: Relative, lower: f64) -> Result<EqualityRow, CollisionError>
        ensures { result ≡ twist_row self.joint self.ends.frame_a r lower }
    {
        let q = r.rotation;
        let half = atan2(q.z, q.w)?;
        let value = rem_tau(2.0 * half - lower + PI) - PI;
        if abs(value) >= PI - 1.0e-10 {
            return Err(CollisionError::NonConvergent);
        }
        let gradient = Vec3::Z.scale(2.0 * q.w / r.norm_squared);
        let scalar = -2.0 * q.z / r.norm_squared;
        self.gradient_row(q, gradient, scalar, value)
    }

    #[tactic(auto, unfolding(arith::specs::Flow::and_then))]
    fn twist_row_if(self, r: Relative, cone: Cone) -> Result<Option<EqualityRow>, CollisionError>
        ensures { listed result ≡ row_if (twist_locked cone) (twist_row self.joint self.ends.frame_a r cone.twist_lower) }
    {
        (cone.twist_lower == cone.twist_upper)
            .then(|| self.twist_row(r, cone.twist_lower))
            .transpose()
    }

    fn write_linear(self, s: &mut [f64], at: usize, linear: Linear) -> Result<usize, CollisionError>
        requires { at + 42 ≤ length s.old }
        ensures { Adds self.joint at 3 s.old s.new result (linear_rows linear self.joint self.ends) }
    {
        let locked = axes_of(linear);
        let x = self.linear_row_if(locked.x, Vec3::X)?;
        let one = append(s, at, 0, x);
        let y = self.linear_row_if(locked.y, Vec3::Y)?;
        let two = append(s, at, one, y);
        let z = self.linear_row_if(locked.z, Vec3::Z)?;
        Ok(append(s, at, two, z))
    }

    fn write_align(self, s: &mut [f64], at: usize) -> Result<usize, CollisionError>
        requires { at + 42 ≤ length s.old }
        ensures { Adds self.joint at 3 s.old s.new result (align_rows self.joint self.ends) }
    {
        let z = self.aligned()?;
        let x = self.align_row(Vec3::X, z)?;
        let one = append(s, at, 0, Some(x));
        let y = self.align_row(Vec3::Y, z)?;
        Ok(append(s, at, one, Some(y)))
    }

    fn write_cone(self, s: &mut [f64], at: usize, cone: Cone) -> Result<usize, CollisionError>
        requires { at + 42 ≤ length s.old }
        ensures { Adds self.joint at 3 s.old s.new result (cone_rows self.joint self.ends cone) }
    {
        let r = relative_of(cone, self.ends.frame_a, self.ends.frame_b)?;
        let x = self.swing_row_if(cone.swing_x, r, swing_x(r.rotation))?;
        let one = append(s, at, 0, x);
        let y = self.swing_row_if(cone.swing_y, r, swing_y(r.rotation))?;
        let two = append(s, at, one, y);
        let twist = self.twist_row_if(r, cone)?;
        Ok(append(s, at, two, twist))
    }

    // The rows on rotations.
    fn write_turning(
        self,
        s: &mut [f64],
        at: usize,
        turning: Turning,
    ) -> Result<usize, CollisionError>
        requires { at + 42 ≤ length s.old }
        ensures { Adds self.joint at 3 s.old s.new result (turning_rows turning self.joint self.ends) }
    {
        match turning {
            Turning::Free => Ok(0),
            Turning::Align => self.write_align(s, at),
            Turning::Cone(cone) => self.write_cone(s, at, cone),
        }
    }
}

fn values_finite(s: &[f64], at: usize, count: usize) -> bool
    requires { at + 14 * count ≤ length s.now }
    ensures { (a b : ℕ) → result ≡ finite_values (rows_at s.now at a b count) }
{
    (0..count).all(|k| is_finite(s[at + ROW * k + VALUE]))
}

// All rows but a rod's: the linear ones, then those on rotations. What every row wants is taken once: the tolerance, and frame a
// normalized. A failure of either is the first row's, since there is always a linear row.
fn write_frames(
    s: &mut [f64],
    at: usize,
    joint: Joint,
    ends: Ends,
    linear: Linear,
    turning: Turning,
) -> Result<usize, CollisionError>
    requires { at + 84 ≤ length s.old }
    ensures { Adds joint at 6 s.old s.new result (frame_rows linear turning joint ends) }
{
    let tolerance = tolerance(ends.pa, ends.pb)?;
    let unit = unit_of(ends.frame_a)?;
    let basis = Basis {
        joint,
        ends,
        unit,
        tolerance,
    };
    let along = basis.write_linear(s, at, linear)?;
    let count = along + basis.write_turning(s, at + ROW * along, turning)?;
    if !values_finite(s, at, count) {
        return Err(CollisionError::ArithmeticOverflow);
    }
    Ok(count)
}

// The rows of a joint by what its kind holds.
fn write_kind(
    s: &mut [f64],
    at: usize,
    joint: Joint,
    a: MomentumBody,
    b: MomentumBody,
) -> Result<usize, CollisionError>
    requires { at + 84 ≤ length s.old }
    ensures { Adds joint at 6 s.old s.new result (write_equality_rows joint a b) }
{
    let ends = ends_of(joint, a, b)?;
    match motions_of(joint.kind) {
        Motions::Rod(rod) => {
            let row = distance_row(joint, ends, rod)?;
            Ok(append(s, at, 0, Some(row)))
        }
        Motions::Frame(linear, turning) => write_frames(s, at, joint, ends, linear, turning),
    }
}

#[tactic(auto, using(std::proofs::lemmas::List::places, arith::specs::Literals::literals))]
pub fn clear(s: &mut [f64], at: usize, size: usize)
    requires { at + size ≤ length s.old }
    ensures { Filled at size (λ _. ratio 0 1) s.old s.new }
{
    s[at..at + size].fill(0.0);
}

// The rows of a joint, at a place of the scratch: the caller shows that it is there. A fault leaves zeros, and no row that
// was made before it.
pub fn write_equality_rows(
    s: &mut [f64],
    at: usize,
    joint: Joint,
    a: MomentumBody,
    b: MomentumBody,
) -> Result<usize, CollisionError>
    requires { at + 84 ≤ length s.old }
    ensures { Writes joint a b at s.old s.new result }
{
    let written = write_kind(s, at, joint, a, b);
    if written.is_err() {
        clear(s, at, SPACE);
    }
    written
}

fn linear_count(linear: Linear) -> usize
    ensures { (result ≡ linear_count linear) × (result ≤ 3) }
{
    match linear {
        Linear::Point => 3,
        Linear::Line => 2,
        Linear::Plane => 1,
    }
}

fn turning_count(turning: Turning) -> usize
    ensures { (result ≡ turning_count turning) × (result ≤ 3) }
{
    match turning {
        Turning::Free => 0,
        Turning::Align => 2,
        Turning::Cone(cone) => {
            usize::from(cone.swing_x == 0.0)
                + usize::from(cone.swing_y == 0.0)
                + usize::from(cone.twist_lower == cone.twist_upper)
        }
    }
}

// The rows of a kind, as many as `write_equality_rows` writes.
pub fn row_count(kind: Kind) -> usize
    ensures { result ≡ row_count kind }
{
    match motions_of(kind) {
        Motions::Rod(_) => 1,
        Motions::Frame(linear, turning) => linear_count(linear) + turning_count(turning),
    }
}
