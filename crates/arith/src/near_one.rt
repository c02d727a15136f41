// The square root of a number from 1 to 2, as the hypotenuse needs it: a guess in doubles, and a check on whole numbers that it
// is the nearest. Nothing is claimed of the guess: where the check fails (about once in 600), `sqrt` answers.
ghost use Rattle.std.specs.Prelude.{◌≡◌, true, ◌*◌, ◌^◌, ◌<◌};
ghost use Rattle.std.specs.Float.{binary64};
ghost use Rattle.arith.specs.Root as Root;
ghost use Rattle.arith.specs.Answered.{NearRoot};

use crate::root::sqrt;

// That q is the whole number nearest to the root of m * 2^52, where this says so. With q = a * 2^26 + b,
// m * 2^52 - q * q = ((m - a * a) * 2^25 - a * b) * 2^27 - b * b, which must lie above -q and at most at q.
#[tactic(auto, using(crate::proofs::NearOne::checked))]
fn is_nearest(m: u64, q: u64) -> bool
    requires { q < 2 ^ 53 }
    ensures { result ≡ true → NearRoot (m * 2 ^ 52) q }
{
    let a = q / 67108864;
    let b = q % 67108864;
    let aa = a * a;
    if m < aa {
        return false;
    }
    let d = m - aa;
    if d >= 536870912 {
        return false;
    }
    let p = d * 33554432 + 67108864;
    let c = a * b;
    if p < c {
        return false;
    }
    let u = p - c;
    if u >= 536870912 {
        return false;
    }
    let w = u * 134217728;
    let z = b * b + 9007199254740992;
    z < w + q && w <= z + q
}

// A guess at the root of x = 1 + u, u from 0 to 1, which is nearly always the nearest f64. r is a polynomial near the
// inverse of the root, t one near the root plus 3 * 2^26, which cuts it, so that c, near the root, has few digits and c * c
// is exact. One step of third order leads from c to the guess.
fn guess(u: f64, x: f64) -> f64 {
    let u2 = u * u;
    let u4 = u2 * u2;
    let r = ((0.9999978680482673 - 0.49978910776036045 * u)
        + u2 * (0.3714630998746441 - 0.2891872574494256 * u))
        + u4 * ((0.19465110106454203 - 0.08931906130649783 * u) + u2 * 0.019291252572817566);
    let t = ((201326593.0 + 0.49997798114335396 * u)
        + u2 * (0.06012104454831453 * u - 0.12463354157288747))
        + u4 * ((0.01249288675072016 * u - 0.031236733879662505) - u2 * 0.0025084247285919246);
    let c = t - 201326592.0;
    let e = x - c * c;
    let k = 0.5 * r;
    c + e * (k * (2.0 - c * r) - e * (k * k * k))
}

// The root of x, which is 1 + u for the guess to be good. A double from 1 to 2 has 1023 in its exponent's field.
#[tactic(auto, using(std::proofs::lemmas::Float::le_right))]
pub(crate) fn root_near_one(u: f64, x: f64) -> f64
    ensures { result ≡ Root.sqrt binary64 x }
{
    if x >= 1.0 {
        let s = guess(u, x);
        if s >= 1.0 {
            let b = f64::to_bits(x);
            if b / 4503599627370496 == 1023 {
                let n = f64::to_bits(s);
                if n / 4503599627370496 == 1023
                    && is_nearest(b - 4602678819172646912, n - 4602678819172646912)
                {
                    return s;
                }
            }
        }
    }
    sqrt(x)
}
