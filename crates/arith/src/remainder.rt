// The remainder of a double by TAU, on whole numbers: `%` on doubles would be a call of the C library's fmod.
ghost use Rattle.std.specs.Prelude.{◌≡◌, false, ◌*◌, ◌%◌, ◌^◌};
ghost use Rattle.std.specs.Float.Ieee as Ieee;
ghost use Rattle.std.specs.Float.{binary64};
ghost use Rattle.arith.specs.Real.{F};
ghost use Rattle.arith.specs.Angle.{TAU};

use crate::angle::TAU;

// TAU is this many times 2^-50.
const TAU_DIGITS: u64 = 7074237752028440;

// The remainder of m * 2^n by TAU's digits, eleven doublings at a time: TAU's digits times 2^11 are below 2^64.
#[tactic(auto, using(crate::proofs::Doubling::doublings))]
fn doubled(m: u64, n: u64) -> u64
    ensures { result ≡ m * 2 ^ n % 7074237752028440 }
{
    let mut r = m % TAU_DIGITS;
    for _ in 0..n / 11 {
        r = r * 2048 % TAU_DIGITS;
    }
    (r << n % 11) % TAU_DIGITS
}

// The remainder of an x that is not below 0. From TAU on x is m * 2^n times 2^-50, for the 53 digits m and the field n + 1025
// of its bits; below 8,192 the loop takes no turn.
#[tactic(auto, using(crate::proofs::RemainderCases::above))]
fn unsigned_remainder(x: f64) -> f64
    requires { Ieee.lt x (F 0) ≡ false }
    ensures { result ≡ Ieee.rem binary64 x TAU }
{
    if x < TAU {
        return x;
    }
    if x < f64::INFINITY {
        let b = f64::to_bits(x);
        let m = b % 4503599627370496 + 4503599627370496;
        let n = b / 4503599627370496 - 1025;
        return (doubled(m, n) as f64) * 8.881784197001252e-16;
    }
    0.0 / 0.0
}

// x % TAU, for every x.
#[tactic(auto, using(crate::proofs::RemainderCases::below))]
pub(crate) fn remainder_tau(x: f64) -> f64
    ensures { result ≡ Ieee.rem binary64 x TAU }
{
    if x < 0.0 {
        return -unsigned_remainder(-x);
    }
    unsigned_remainder(x)
}
