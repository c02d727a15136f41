// Loads and stores of the scratch: a row of a table, a body's share of the rows, and its mass response.
ghost use Rattle.std.specs.Prelude.{◌≡◌, ◌+◌, ◌*◌, ◌≤◌, ◌<◌, length};
ghost use Rattle.rows.specs.View.{Out, Kept};
ghost use Rattle.solves.specs.Checked.{finite_share};
ghost use Rattle.solves.specs.View.{row_on, generalized_at, mass_at, mass_of};

use crate::joined::Rows;
use crate::layout::{MASS, SHARE};
use rows::geometry::{EqualityRow, ROW, load3, store3};
use vectors::matrix::Mat3;
use vectors::vector::Vec3;

// A body's linear and angular share, as the rows push it: the Rust's `[Vec3; 2]`.
#[derive(Clone, Copy)]
pub struct Generalized {
    pub linear: Vec3,
    pub angular: Vec3,
}

impl Generalized {
    pub(crate) fn is_finite(self) -> bool
        ensures { result ≡ finite_share self }
    {
        self.linear.is_finite() && self.angular.is_finite()
    }
}

#[derive(Clone, Copy)]
pub struct MassResponse {
    pub linear: f64,
    pub angular: Mat3,
}

impl Rows<'_> {
    pub fn count(&self) -> usize
        ensures { result ≡ length self.now.a.now }
    {
        self.a.len()
    }

    pub fn load(&self, s: &[f64], k: usize) -> EqualityRow
        requires { (self.now.place + 14 * k + 14 ≤ length s.now) × (k < length self.now.a.now) }
        ensures { result ≡ row_on self.now.a.now self.now.b.now s.now self.now.place k }
    {
        EqualityRow::load(s, self.place + ROW * k, self.a[k], self.b[k])
    }
}

pub fn load_generalized(s: &[f64], place: usize, k: usize) -> Generalized
    requires { place + 6 * k + 6 ≤ length s.now }
    ensures { result ≡ generalized_at s.now place k }
{
    let i = place + SHARE * k;
    Generalized {
        linear: load3(s, i),
        angular: load3(s, i + 3),
    }
}

pub(crate) fn store_generalized(s: &mut [f64], place: usize, k: usize, g: Generalized)
    requires { place + 6 * k + 6 ≤ length s.old }
    ensures { (Kept (λ j. Out (place + 6 * k) 6 j) s.old s.new) × (generalized_at s.new place k ≡ g) }
{
    let i = place + SHARE * k;
    store3(s, i, g.linear);
    store3(s, i + 3, g.angular);
}

pub(crate) fn load_mass(s: &[f64], place: usize, k: usize) -> MassResponse
    requires { place + 10 * k + 10 ≤ length s.now }
    ensures { result ≡ mass_at s.now place k }
{
    let i = place + MASS * k;
    let x = load3(s, i + 1);
    let y = load3(s, i + 4);
    let z = load3(s, i + 7);
    MassResponse {
        linear: s[i],
        angular: Mat3::from_cols(x, y, z),
    }
}

pub fn store_mass(s: &mut [f64], place: usize, k: usize, linear: f64, x: Vec3, y: Vec3, z: Vec3)
    requires { place + 10 * k + 10 ≤ length s.old }
    ensures { (Kept (λ j. Out (place + 10 * k) 10 j) s.old s.new) × (mass_at s.new place k ≡ mass_of linear x y z) }
{
    let i = place + MASS * k;
    s[i] = linear;
    store3(s, i + 1, x);
    store3(s, i + 4, y);
    store3(s, i + 7, z);
}
