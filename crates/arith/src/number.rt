// Finiteness, magnitude and the larger of two doubles.
ghost use Rattle.std.specs.Prelude.{◌≡◌};
ghost use Rattle.arith.specs.Real.{is_finite, abs_of, max_of};

#[tactic(auto, using(crate::proofs::Ways::finite_by))]
pub fn is_finite(x: f64) -> bool
    ensures { result ≡ is_finite x }
{
    f64::NEG_INFINITY < x && x < f64::INFINITY
}

// The magnitude: +0 for both zeros. One test, since 0 - x is exact and gives +0 for both zeros too.
#[tactic(auto, using(crate::proofs::Ways::abs_laws))]
pub fn abs(x: f64) -> f64
    ensures { result ≡ abs_of x }
{
    if x <= 0.0 { 0.0 - x } else { x }
}

// The larger of two numbers; the first where neither is larger.
pub fn max(a: f64, b: f64) -> f64
    ensures { result ≡ max_of a b }
{
    if a < b { b } else { a }
}
