// Sine and cosine of an angle from 0 to 4, the arc tangent of a quotient, and the remainder by a whole turn.
ghost use Rattle.std.specs.Prelude.{◌≡◌};
ghost use Rattle.arith.specs.Angle.{horner, sine_sum, cosine_sum, sums_at, doubled, halved_of};
ghost use Rattle.arith.specs.Angle.{half_tangent, arc_sum, octant, quadrant, facing, angle_of, rem_tau_of};
ghost use Rattle.arith.specs.Answered.{SinCosAnswered, Atan2Answered};

use crate::fault::CollisionError;
use crate::number::{abs, is_finite};
use crate::remainder::remainder_tau;
use crate::root::sqrt;

pub const PI: f64 = 3.141592653589793;

pub(crate) const TAU: f64 = 6.283185307179586;

const HALF_PI: f64 = 1.5707963267948966;

// Sine s and cosine c of one angle.
#[derive(Clone, Copy)]
pub struct SineCosine {
    pub s: f64,
    pub c: f64,
}

// Horner's sum in z: from the coefficient of the highest power, each time times z plus the next of `rest`.
#[tactic(auto, unfolding(crate::specs::Angle::horner))]
fn horner(z: f64, highest: f64, rest: &[f64]) -> f64
    ensures { result ≡ horner z highest rest.now }
{
    let mut sum = highest;
    for coefficient in rest {
        sum = sum * z + *coefficient;
    }
    sum
}

// The Taylor sum of the sine through power 13, at an x of at most 1/2.
fn sine_sum(x: f64) -> f64
    ensures { result ≡ sine_sum x }
{
    let rest = [
        -2.505210838544172e-08,
        2.7557319223985893e-06,
        -0.0001984126984126984,
        0.008333333333333333,
        -0.16666666666666666,
        1.0,
    ];
    horner(x * x, 1.6059043836821613e-10, &rest) * x
}

// The Taylor sum of the cosine through power 14, at an x of at most 1/2.
fn cosine_sum(x: f64) -> f64
    ensures { result ≡ cosine_sum x }
{
    let rest = [
        2.08767569878681e-09,
        -2.755731922398589e-07,
        2.48015873015873e-05,
        -0.001388888888888889,
        0.041666666666666664,
        -0.5,
        1.0,
    ];
    horner(x * x, -1.1470745597729725e-11, &rest)
}

// The sums at an angle of at most 1/2.
#[tactic(auto, unfolding(crate::specs::Angle::sums_at))]
fn sums_at(x: f64) -> SineCosine
    ensures { result ≡ sums_at x }
{
    SineCosine {
        s: sine_sum(x),
        c: cosine_sum(x),
    }
}

// Twice the angle, both from the old sine and cosine.
fn doubled(t: SineCosine) -> SineCosine
    ensures { result ≡ doubled t }
{
    let d = 2.0 * t.s;
    SineCosine {
        s: d * t.c,
        c: 1.0 - d * t.s,
    }
}

// The angle halved until it is at most 0.5, but at most `halvings` times; each halving is undone by a doubling.
#[tactic(auto, using(crate::specs::Literals::literals), unfolding(crate::specs::Angle::halved_of))]
fn halved(halvings: usize, x: f64) -> SineCosine
    ensures { result ≡ halved_of halvings x }
{
    if halvings == 0 || x <= 0.5 {
        return sums_at(x);
    }
    doubled(halved(halvings - 1, x * 0.5))
}

// An angle below 0, above 4 or not a number is refused: refusal 11.
pub fn sin_cos(h: f64) -> Result<SineCosine, CollisionError>
    ensures { SinCosAnswered h result }
{
    if h < 0.0 {
        return Err(CollisionError::ArithmeticOverflow);
    }
    if h <= 4.0 {
        return Ok(halved(3, h));
    }
    Err(CollisionError::ArithmeticOverflow)
}

// The tangent of half the angle whose tangent is q.
#[tactic(auto, using(crate::specs::Literals::literals), unfolding(crate::specs::Angle::half_tangent))]
fn half_tangent(q: f64) -> f64
    ensures { result ≡ half_tangent q }
{
    q / (1.0 + sqrt(1.0 + q * q))
}

// The odd Taylor sum of the arc tangent through power 23.
fn arc_sum(q: f64) -> f64
    ensures { result ≡ arc_sum q }
{
    let rest = [
        0.047619047619047616,
        -0.05263157894736842,
        0.058823529411764705,
        -0.06666666666666667,
        0.07692307692307693,
        -0.09090909090909091,
        0.1111111111111111,
        -0.14285714285714285,
        0.2,
        -0.3333333333333333,
        1.0,
    ];
    horner(q * q, -0.043478260869565216, &rest) * q
}

// The angle of the first octant whose tangent is q.
#[tactic(auto, using(crate::specs::Literals::literals), unfolding(crate::specs::Angle::octant))]
fn octant(q: f64) -> f64
    ensures { result ≡ octant q }
{
    arc_sum(half_tangent(half_tangent(q))) * 4.0
}

// The angle of the first quadrant of the magnitudes ay over ax, not both 0.
#[tactic(auto, using(crate::specs::Literals::literals, crate::proofs::Ways::half_pi), unfolding(crate::specs::Angle::quadrant))]
fn quadrant(ay: f64, ax: f64) -> f64
    ensures { result ≡ quadrant ay ax }
{
    if ax < ay {
        return HALF_PI - octant(ax / ay);
    }
    octant(ay / ax)
}

// The angle v of the magnitudes, brought to the side of x.
fn facing(v: f64, x: f64) -> f64
    ensures { result ≡ facing v x }
{
    if x < 0.0 { PI - v } else { v }
}

// The angle of (x, y), one of them not 0. A zero counts as +0.
#[tactic(auto, using(crate::specs::Literals::literals), unfolding(crate::specs::Angle::angle_of))]
fn angle_of(y: f64, x: f64) -> f64
    ensures { result ≡ angle_of y x }
{
    let w = facing(quadrant(abs(y), abs(x)), x);
    if y < 0.0 { -w } else { w }
}

// An argument that is not finite is refused: refusal 11.
#[tactic(auto, using(crate::specs::Literals::literals, crate::proofs::Ways::atan2_answered), unfolding(crate::specs::Angle::atan2_of))]
pub fn atan2(y: f64, x: f64) -> Result<f64, CollisionError>
    ensures { Atan2Answered y x result }
{
    if !is_finite(y) || !is_finite(x) {
        return Err(CollisionError::ArithmeticOverflow);
    }
    if x == 0.0 && y == 0.0 {
        return Ok(0.0);
    }
    Ok(angle_of(y, x))
}

// `rem_euclid` by TAU.
#[tactic(auto, using(crate::specs::Literals::literals), unfolding(crate::specs::Angle::rem_tau_of))]
pub fn rem_tau(x: f64) -> f64
    ensures { result ≡ rem_tau_of x }
{
    let r = remainder_tau(x);
    if r < 0.0 { r + TAU } else { r }
}
