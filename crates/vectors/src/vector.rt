// A vector of three doubles.
ghost use Rattle.std.specs.Prelude.{◌≡◌};
ghost use Rattle.vectors.specs.Vector.{vec, dot_of, cross_of, length_of, largest_of, try_normalize_of, finite_of, checked_length_of};
ghost use Rattle.vectors.specs.Vector.{add_of, sub_of, scale_of, div_of, neg_of};

use crate::normal::{Normal, normalize};
use arith::number::{abs, is_finite, max};
use arith::root::hypot;

#[derive(Clone, Copy, PartialEq)]
pub struct Vec3 {
    pub x: f64,
    pub y: f64,
    pub z: f64,
}

impl Vec3 {
    pub const ZERO: Vec3 = Vec3 {
        x: 0.0,
        y: 0.0,
        z: 0.0,
    };

    pub const X: Vec3 = Vec3 {
        x: 1.0,
        y: 0.0,
        z: 0.0,
    };

    pub const Y: Vec3 = Vec3 {
        x: 0.0,
        y: 1.0,
        z: 0.0,
    };

    pub const Z: Vec3 = Vec3 {
        x: 0.0,
        y: 0.0,
        z: 1.0,
    };

    pub fn new(x: f64, y: f64, z: f64) -> Vec3
        ensures { result ≡ vec x y z }
    {
        Vec3 { x, y, z }
    }

    pub fn dot(self, rhs: Vec3) -> f64
        ensures { result ≡ dot_of self rhs }
    {
        self.x * rhs.x + self.y * rhs.y + self.z * rhs.z
    }

    pub fn cross(self, rhs: Vec3) -> Vec3
        ensures { result ≡ cross_of self rhs }
    {
        Vec3 {
            x: self.y * rhs.z - self.z * rhs.y,
            y: self.z * rhs.x - self.x * rhs.z,
            z: self.x * rhs.y - self.y * rhs.x,
        }
    }

    pub fn length_squared(self) -> f64
        ensures { result ≡ dot_of self self }
    {
        self.dot(self)
    }

    // The unit vector of the same direction, or nothing for zero and for what is not finite.
    pub fn try_normalize(self) -> Option<Vec3>
        ensures { result ≡ try_normalize_of self }
    {
        normalize(self)
    }

    // x - x is +0 for a finite x, else a NaN, which a sum keeps. So one test does, and no branch.
    #[tactic(auto, using(crate::proofs::FiniteSum::finite_sum))]
    pub fn is_finite(self) -> bool
        ensures { result ≡ finite_of self }
    {
        (self.x - self.x) + (self.y - self.y) + (self.z - self.z) == 0.0
    }

    #[tactic(auto, unfolding(crate::specs::Vector::checked_length_of))]
    pub fn checked_length(self) -> Option<f64>
        ensures { result ≡ checked_length_of self }
    {
        let result = self.length();
        if is_finite(result) {
            return Some(result);
        }
        None
    }

    pub fn add(self, rhs: Vec3) -> Vec3
        ensures { result ≡ add_of self rhs }
    {
        Vec3 {
            x: self.x + rhs.x,
            y: self.y + rhs.y,
            z: self.z + rhs.z,
        }
    }

    pub fn sub(self, rhs: Vec3) -> Vec3
        ensures { result ≡ sub_of self rhs }
    {
        Vec3 {
            x: self.x - rhs.x,
            y: self.y - rhs.y,
            z: self.z - rhs.z,
        }
    }

    pub fn scale(self, k: f64) -> Vec3
        ensures { result ≡ scale_of self k }
    {
        Vec3 {
            x: self.x * k,
            y: self.y * k,
            z: self.z * k,
        }
    }

    pub fn div(self, k: f64) -> Vec3
        ensures { result ≡ div_of self k }
    {
        Vec3 {
            x: self.x / k,
            y: self.y / k,
            z: self.z / k,
        }
    }

    pub fn neg(self) -> Vec3
        ensures { result ≡ neg_of self }
    {
        Vec3 {
            x: -self.x,
            y: -self.y,
            z: -self.z,
        }
    }
}

impl Normal for Vec3 {
    ghost finite = { finite_of };

    ghost largest_in = { largest_of };

    ghost divided = { div_of };

    ghost length_in = { length_of };

    fn is_finite(self) -> bool {
        Vec3::is_finite(self)
    }

    fn largest(self) -> f64 {
        max(max(abs(self.x), abs(self.y)), abs(self.z))
    }

    fn div(self, k: f64) -> Vec3 {
        Vec3::div(self, k)
    }

    fn length(self) -> f64 {
        hypot(hypot(self.x, self.y), self.z)
    }
}
