// `dot`, `transpose`, `operator` and `cross_mass` of solver.rs.
ghost use Rattle.std.specs.Prelude.{◌≡◌, ◌+◌, ◌≤◌, ◌<◌, length, ℕ};
ghost use Rattle.arith.specs.Flow.{leaving};
ghost use Rattle.solves.specs.Answer.{Pushes};
ghost use Rattle.solves.specs.Region.{vec_at, Does};
ghost use Rattle.solves.specs.Solver.{try_number, sum_products, dot as dot_of, tolerance_for, push_into, push_row, transpose as transpose_of};
ghost use Rattle.solves.specs.Checked.{added, all_finite, checked, checked_then};
ghost use Rattle.solves.specs.Solver.{scaled as scaled_of, scale_all, rate as rate_of, rates as rates_of, operator as operator_of};
ghost use Rattle.solves.specs.Solver.{through as through_of, add_through, cross_end, cross_mass};
ghost use Rattle.solves.specs.View.{shares_in, masses_at, count_of, system_at, VectorPlace, Shares, Beside, Operating};
ghost use Rattle.solves.specs.View.{ROWS_MOST, BODIES_MOST, MASSES, RHS, END};

use crate::joined::Rows;
use crate::layout::{GENERALIZED, MASSES, RHS, SHARE};
use crate::places::{Generalized, MassResponse, load_generalized, load_mass, store_generalized};
use arith::fault::CollisionError;
use arith::number;
use arith::root::sqrt;
use rows::body::finite;
use rows::geometry::{EqualityRow, clear};
use vectors::vector::Vec3;

// A number, if it is finite.
pub fn finite_number(value: f64) -> Result<f64, CollisionError>
    ensures { result ≡ try_number value }
{
    if !number::is_finite(value) {
        return Err(CollisionError::ArithmeticOverflow);
    }
    Ok(value)
}

fn products(s: &[f64], a: usize, b: usize, n: usize) -> f64
    requires { (a + n ≤ length s.now) × (b + n ≤ length s.now) }
    ensures { result ≡ sum_products (vec_at s.now a n) (vec_at s.now b n) n }
{
    s[a..a + n]
        .iter()
        .zip(&s[b..b + n])
        .fold(0.0, |total, (x, y)| total + x * y)
}

pub(crate) fn dot(s: &[f64], a: usize, b: usize, n: usize) -> Result<f64, CollisionError>
    requires { (a + n ≤ length s.now) × (b + n ≤ length s.now) }
    ensures { result ≡ dot_of (vec_at s.now a n) (vec_at s.now b n) }
{
    finite_number(products(s, a, b, n))
}

// The tolerance of a solve: `scale` times one more than the length of the right side.
#[tactic(auto, using(arith::specs::Literals::literals), unfolding(crate::specs::Solver::tolerance_for, arith::specs::Flow::and_then))]
pub(crate) fn tolerance_for(s: &[f64], scale: f64, n: usize) -> Result<f64, CollisionError>
    requires { (END ≤ length s.now) × (n ≤ ROWS_MOST) }
    ensures { result ≡ tolerance_for scale (vec_at s.now RHS n) }
{
    Ok(scale * (1.0 + sqrt(dot(s, RHS, RHS, n)?)))
}

// A body's share with that of one row more. It is tested when all rows are in: what is not finite stays so.
fn pushed(body: Generalized, linear: Vec3, angular: Vec3, value: f64) -> Generalized
    ensures { result ≡ added body linear angular value }
{
    Generalized {
        linear: body.linear.add(linear.scale(value)),
        angular: body.angular.add(angular.scale(value)),
    }
}

fn push_into(s: &mut [f64], index: usize, linear: Vec3, angular: Vec3, value: f64)
    requires { (END ≤ length s.old) × (index < BODIES_MOST) }
    ensures { (n : ℕ) → index < n → Does Shares s.old s.new (checked (shares_in s.new n))
        (checked_then (push_into index linear angular value) (shares_in s.old n)) }
{
    let body = load_generalized(s, GENERALIZED, index);
    let share = pushed(body, linear, angular, value);
    store_generalized(s, GENERALIZED, index, share);
}

fn push_row(s: &mut [f64], row: EqualityRow, value: f64)
    requires { (END ≤ length s.old) × (row.a < BODIES_MOST) × (row.b < BODIES_MOST) }
    ensures { (n : ℕ) → row.a < n → row.b < n → Does Shares s.old s.new (checked (shares_in s.new n))
        (checked_then (push_row row value) (shares_in s.old n)) }
{
    push_into(s, row.a, row.linear_a, row.angular_a, value);
    push_into(s, row.b, row.linear_b, row.angular_b, value);
}

// Whether every body's share is finite.
fn shares_finite(s: &[f64], body_count: usize) -> bool
    requires { (END ≤ length s.now) × (body_count ≤ BODIES_MOST) }
    ensures { result ≡ all_finite (shares_in s.now body_count) }
{
    (0..body_count).all(|k| load_generalized(s, GENERALIZED, k).is_finite())
}

// A share through the mass response of its body.
#[tactic(auto, unfolding(crate::specs::Solver::scaled, arith::specs::Flow::and_then))]
fn scaled(value: Generalized, mass: MassResponse) -> Result<Generalized, CollisionError>
    ensures { result ≡ scaled_of value mass }
{
    Ok(Generalized {
        linear: finite(value.linear.scale(mass.linear))?,
        angular: finite(mass.angular.apply(value.angular))?,
    })
}

fn scale_all(s: &mut [f64], body_count: usize) -> Result<(), CollisionError>
    requires { (END ≤ length s.old) × (body_count ≤ BODIES_MOST) }
    ensures { Does Shares s.old s.new (leaving result (shares_in s.new body_count))
        (scale_all (shares_in s.old body_count) (masses_at s.old MASSES body_count) body_count) }
{
    for k in 0..body_count {
        let value = load_generalized(s, GENERALIZED, k);
        let mass = load_mass(s, MASSES, k);
        let through = scaled(value, mass)?;
        store_generalized(s, GENERALIZED, k, through);
    }
    Ok(())
}

// A row along the motions of its two bodies.
#[tactic(auto, unfolding(crate::specs::Solver::rate))]
fn rate(row: EqualityRow, a: Generalized, b: Generalized) -> f64
    ensures { result ≡ rate_of row a b }
{
    row.linear_a.dot(a.linear)
        + row.angular_a.dot(a.angular)
        + row.linear_b.dot(b.linear)
        + row.angular_b.dot(b.angular)
}

impl Rows<'_> {
    // Each body's share of the rows times their values.
    pub fn transpose(&self, s: &mut [f64], values: usize) -> Result<(), CollisionError>
        requires { (END ≤ length s.old) × (VectorPlace s.old values) }
        ensures { Pushes s.old s.new self.now result (λ rows. transpose_of rows (vec_at s.old values (count_of self.now)) self.now.bodies) }
    {
        clear(s, GENERALIZED, SHARE * self.bodies);
        for k in 0..self.count() {
            let row = self.load(s, k);
            let value = s[values + k];
            push_row(s, row, value);
        }
        if !shares_finite(s, self.bodies) {
            return Err(CollisionError::ArithmeticOverflow);
        }
        Ok(())
    }

    fn rates(&self, s: &mut [f64], out: usize) -> Result<(), CollisionError>
        requires { (END ≤ length s.old) × (VectorPlace s.old out) }
        ensures { Does (Beside out) s.old s.new (leaving result (vec_at s.new out (count_of self.now)))
            (rates_of (system_at s.old self.now).rows (count_of self.now) (shares_in s.old self.now.bodies)) }
    {
        for k in 0..self.count() {
            let row = self.load(s, k);
            let a = load_generalized(s, GENERALIZED, row.a);
            let b = load_generalized(s, GENERALIZED, row.b);
            s[out + k] = finite_number(rate(row, a, b))?;
        }
        Ok(())
    }

    // The rows' Schur operator on `input`: back to the bodies, through their masses, and along the rows again.
    pub(crate) fn operator(
        &self,
        s: &mut [f64],
        input: usize,
        out: usize,
    ) -> Result<(), CollisionError>
        requires { (END ≤ length s.old) × (VectorPlace s.old input) × (VectorPlace s.old out) }
        ensures { Does (Operating out) s.old s.new (leaving result (vec_at s.new out (count_of self.now)))
            (operator_of (system_at s.old self.now) (vec_at s.old input (count_of self.now))) }
    {
        self.transpose(s, input)?;
        scale_all(s, self.bodies)?;
        self.rates(s, out)
    }
}

// The share of one body in the entry of two rows that both touch it.
#[tactic(auto, unfolding(crate::specs::Solver::through))]
fn through(mass: MassResponse, al: Vec3, aa: Vec3, bl: Vec3, ba: Vec3) -> f64
    ensures { result ≡ through_of mass al aa bl ba }
{
    mass.linear * al.dot(bl) + aa.dot(mass.angular.apply(ba))
}

// One end of row a, on body `ai`, against one end of row b: nothing where that is on another body.
fn add_through(
    s: &[f64],
    value: f64,
    ai: usize,
    al: Vec3,
    aa: Vec3,
    bi: usize,
    bl: Vec3,
    ba: Vec3,
) -> f64
    requires { (END ≤ length s.now) × (ai < BODIES_MOST) }
    ensures { (n : ℕ) → ai < n → result ≡ add_through (masses_at s.now MASSES n) ai al aa bi bl ba value }
{
    if ai == bi {
        let mass = load_mass(s, MASSES, ai);
        return value + through(mass, al, aa, bl, ba);
    }
    value
}

// One end of row a against both ends of row b.
#[tactic(auto, unfolding(crate::specs::Solver::cross_end))]
fn cross_end(s: &[f64], value: f64, ai: usize, al: Vec3, aa: Vec3, b: EqualityRow) -> f64
    requires { (END ≤ length s.now) × (ai < BODIES_MOST) }
    ensures { (n : ℕ) → ai < n → result ≡ cross_end (masses_at s.now MASSES n) ai al aa b value }
{
    let half = add_through(s, value, ai, al, aa, b.a, b.linear_a, b.angular_a);
    add_through(s, half, ai, al, aa, b.b, b.linear_b, b.angular_b)
}

// The entry of the rows' Schur matrix.
pub(crate) fn cross_mass(s: &[f64], a: EqualityRow, b: EqualityRow) -> Result<f64, CollisionError>
    requires { (END ≤ length s.now) × (a.a < BODIES_MOST) × (a.b < BODIES_MOST) }
    ensures { (n : ℕ) → a.a < n → a.b < n → result ≡ cross_mass a b (masses_at s.now MASSES n) }
{
    let half = cross_end(s, 0.0, a.a, a.linear_a, a.angular_a, b);
    finite_number(cross_end(s, half, a.b, a.linear_b, a.angular_b, b))
}
