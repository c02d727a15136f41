// What vectors and quaternions share: they are brought to length 1 in the same way.
ghost use Rattle.std.specs.Prelude.{◌≡◌, Bool, Float};
ghost use Rattle.vectors.specs.Vector.{normalize_by};

use arith::number::is_finite;

// Numbers that have a direction.
pub(crate) trait Normal: Copy {
    ghost finite: { Self → Bool };

    ghost largest_in: { Self → Float };

    ghost divided: { Self → Float → Self };

    ghost length_in: { Self → Float };

    fn is_finite(self) -> bool
        ensures { result ≡ finite self };

    // The largest magnitude of a component.
    fn largest(self) -> f64
        ensures { result ≡ largest_in self };

    fn div(self, k: f64) -> Self
        ensures { result ≡ divided self k };

    // The Euclidean length; infinite where a hypotenuse overflows.
    fn length(self) -> f64
        ensures { result ≡ length_in self };
}

// What has the same direction and length 1, or nothing for zero and for what is not finite. Scaling before the norm keeps it
// from overflow and underflow.
#[tactic(auto, using(arith::specs::Literals::literals), unfolding(crate::specs::Vector::normalize_by))]
pub(crate) fn normalize<V: Normal>(v: V) -> Option<V>
    ensures { result ≡ normalize_by V.finite V.largest_in V.divided V.length_in v }
{
    if !v.is_finite() {
        return None;
    }
    let scale = v.largest();
    if scale == 0.0 {
        return None;
    }
    let scaled = v.div(scale);
    let length = scaled.length();
    if !is_finite(length) || length == 0.0 {
        return None;
    }
    Some(scaled.div(length))
}
