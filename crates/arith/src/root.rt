// The square root of an f64, by integer arithmetic on its bits, and the hypotenuse over it.
ghost use Rattle.std.specs.Prelude.{◌≡◌, ◌+◌, ◌-◌, ◌*◌, ◌/◌, ◌%◌, ◌^◌, ◌≤◌, ◌<◌};
ghost use Rattle.std.specs.Float.{binary64};
ghost use Rattle.std.specs.Float.Ieee.{of_bits};
ghost use Rattle.arith.specs.Root as Root;
ghost use Rattle.arith.specs.Answered.{NearRoot};
ghost use Rattle.arith.specs.SquareRoot.{Rooted};
ghost use Rattle.arith.specs.Hypot.{hypot_of, scaled_root};

use crate::near_one::root_near_one;
use crate::number::{abs, is_finite};

// The whole square root of m, by Newton's iteration from above. The first guess is a step of it
// from 2^26 * √2, the middle of the range.
#[tactic(auto, using(crate::proofs::Newton::guesses))]
fn whole_root(m: u64) -> u64
    requires { (2 ^ 52 ≤ m) × (m < 2 ^ 54) }
    ensures { (result * result ≤ m) × (m < (result + 1) * (result + 1)) }
{
    let mut r = (94906266 + m / 94906266) / 2;
    while m < r * r {
        r = (r + m / r) / 2;
    }
    r
}

// The whole number nearest to the root of m * 2^52: the root s of m gives its upper half, and one
// division the lower half.
fn nearest_root(m: u64) -> u64
    requires { (2 ^ 52 ≤ m) × (m < 2 ^ 54) }
    ensures { NearRoot (m * 2 ^ 52) result }
{
    let s = whole_root(m);
    let d = (m - s * s) * 33554432;
    let t = d / s;
    let p = d % s * 134217728;
    let q = s * 67108864 + t;
    if t * t + q < p { q + 1 } else { q }
}

// The bits of the root of v = m * 2^h, a number of units 2^-2148, the square of the smallest f64:
// the root is q * 2^k units of 2^-1074, for the 53 digits q of the root and k = h / 2 - 26.
fn join(m: u64, h: u64) -> u64
    requires { (2 ^ 52 ≤ m) × (m < 2 ^ 53) × (52 ≤ h) × (h < 4000) }
    ensures { (result < 9218868437227405312) × (of_bits binary64 result ≡ Root.round_root binary64 (m * 2 ^ h)) }
{
    if h % 2 == 0 {
        (h / 2 - 26) * 4503599627370496 + nearest_root(m)
    } else {
        (h / 2 - 26) * 4503599627370496 + nearest_root(2 * m)
    }
}

// The bits of the root of the f64 with the bits b, which is finite and above 0. A subnormal is first
// shifted up by the count of its leading zeros.
#[tactic(auto, using(crate::proofs::RootCases::shifts))]
fn root_bits(b: u64) -> u64
    requires { (0 < b) × (b < 9218868437227405312) }
    ensures { (result < 9218868437227405312) × (of_bits binary64 result ≡ Root.sqrt binary64 (of_bits binary64 b)) }
{
    let e = b / 4503599627370496;
    let t = b % 4503599627370496;
    if e == 0 {
        let z = u64::leading_zeros(t);
        join(t << (z - 11), (1085 - z) as u64)
    } else {
        join(t + 4503599627370496, e + 1073)
    }
}

// IEEE 754's square root of x: the nearest f64, and there never is a tie. A NaN and what is below 0 give
// a NaN, and -0, 0 and +infinity themselves.
#[tactic(auto, using(crate::proofs::RootCases::roots))]
pub fn sqrt(x: f64) -> f64
    ensures { Rooted x result }
{
    if x > 0.0 {
        let b = f64::to_bits(x);
        if b < 9218868437227405312 {
            f64::from_bits(root_bits(b))
        } else {
            x
        }
    } else if x == 0.0 {
        x
    } else {
        0.0 / 0.0
    }
}

// The length of (x, y): the larger magnitude times the root of 1 + r * r, r the smaller over the larger.
#[tactic(auto, using(crate::proofs::Ways::infinity_is), unfolding(crate::specs::Hypot::hypot_of))]
pub fn hypot(x: f64, y: f64) -> f64
    ensures { result ≡ hypot_of x y }
{
    if !is_finite(x) || !is_finite(y) {
        return f64::INFINITY;
    }
    let p = abs(x);
    let q = abs(y);
    if p < q {
        scaled_root(q, p)
    } else {
        scaled_root(p, q)
    }
}

// `hypot` for magnitudes, b at most a.
#[tactic(auto, using(crate::specs::Literals::literals), unfolding(crate::specs::Hypot::scaled_root))]
fn scaled_root(a: f64, b: f64) -> f64
    ensures { result ≡ scaled_root a b }
{
    if a == 0.0 {
        return 0.0;
    }
    let r = b / a;
    let u = r * r;
    a * root_near_one(u, 1.0 + u)
}
