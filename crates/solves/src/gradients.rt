// The diagonal-scaled conjugate gradients at the end of `linear_solve` in solver.rs.
ghost use Rattle.std.specs.Prelude.{◌≡◌, ◌+◌, ◌≤◌, length};
ghost use Rattle.solves.specs.Solver.{within, diagonal_of, prepare as prepare_of, true_residual, scaled_square, next_direction, advance as advance_of};
ghost use Rattle.solves.specs.Search.{settle as settle_of, gradient_pass, gradients as gradients_of};
ghost use Rattle.solves.specs.Answer.{prepared_as, tested_as, search_as, Counted};
ghost use Rattle.arith.specs.Flow.{leaving};
ghost use Rattle.solves.specs.Region.{vec_at, Does};
ghost use Rattle.solves.specs.View.{search_at, count_of, system_at, rhs_at, diagonal_at, solution_at, residual_at};
ghost use Rattle.solves.specs.View.{Passing, Preparing, Testing, Beside, COUNT_MOST, ROWS_MOST, RESIDUAL, DIRECTION, DIAGONAL, END};

use crate::joined::Rows;
use crate::layout::{DIAGONAL, DIRECTION, MASSES, PRODUCT, RESIDUAL, RHS, SOLUTION};
use crate::operator::{dot, tolerance_for};
use crate::places::{MassResponse, load_mass};
use crate::search::search;
use crate::values::{add_scaled, difference};
use arith::fault::CollisionError;
use arith::number::is_finite;
use arith::root::sqrt;
use rows::geometry::EqualityRow;

// Whether the residual is within the tolerance.
#[tactic(auto, unfolding(crate::specs::Solver::within, arith::specs::Flow::and_then))]
pub(crate) fn within(s: &[f64], n: usize, tolerance: f64) -> Result<bool, CollisionError>
    requires { (END ≤ length s.now) × (n ≤ ROWS_MOST) }
    ensures { result ≡ within (vec_at s.now RESIDUAL n) tolerance }
{
    Ok(sqrt(dot(s, RESIDUAL, RESIDUAL, n)?) <= tolerance)
}

// A row's own entry of the Schur matrix: a's half, then b's.
#[tactic(auto, unfolding(crate::specs::Solver::diagonal_of))]
fn diagonal_entry(row: EqualityRow, ma: MassResponse, mb: MassResponse) -> f64
    ensures { result ≡ diagonal_of row ma mb }
{
    ma.linear * row.linear_a.length_squared()
        + row.angular_a.dot(ma.angular.apply(row.angular_a))
        + mb.linear * row.linear_b.length_squared()
        + row.angular_b.dot(mb.angular.apply(row.angular_b))
}

// The diagonal, the first direction, and rho.
fn prepare(s: &mut [f64], rows: &Rows) -> Result<f64, CollisionError>
    requires { END ≤ length s.old }
    ensures { Does Preparing s.old s.new (prepared_as result s.new (count_of rows.now)) (prepare_of (system_at s.old rows.now) (residual_at s.old rows.now)) }
{
    let mut rho = 0.0;
    for k in 0..rows.count() {
        let row = rows.load(s, k);
        let ma = load_mass(s, MASSES, row.a);
        let mb = load_mass(s, MASSES, row.b);
        let d = diagonal_entry(row, ma, mb);
        if !is_finite(d) || d <= 0.0 {
            return Err(CollisionError::NonConvergent);
        }
        let r = s[RESIDUAL + k];
        let x = r / d;
        s[DIAGONAL + k] = d;
        s[DIRECTION + k] = x;
        rho = rho + r * x;
    }
    Ok(rho)
}

// The sum of r * r / d over the residual and the diagonal.
fn scaled_square(s: &[f64], n: usize) -> f64
    requires { (END ≤ length s.now) × (n ≤ ROWS_MOST) }
    ensures { result ≡ scaled_square (vec_at s.now RESIDUAL n) (vec_at s.now DIAGONAL n) }
{
    s[RESIDUAL..RESIDUAL + n]
        .iter()
        .zip(&s[DIAGONAL..DIAGONAL + n])
        .fold(0.0, |total, (r, d)| total + r * r / d)
}

fn next_direction(s: &mut [f64], beta: f64, n: usize)
    requires { (END ≤ length s.old) × (n ≤ ROWS_MOST) }
    ensures { Does (Beside DIRECTION) s.old s.new (vec_at s.new DIRECTION n)
        (next_direction (vec_at s.old RESIDUAL n) (vec_at s.old DIAGONAL n) beta (vec_at s.old DIRECTION n)) }
{
    for k in 0..n {
        s[DIRECTION + k] = s[RESIDUAL + k] / s[DIAGONAL + k] + beta * s[DIRECTION + k];
    }
}

// Recomputes the residual, to prevent a success of the recurrence only. Whether it is within the tolerance still.
fn true_residual(s: &mut [f64], rows: &Rows, tolerance: f64) -> Result<bool, CollisionError>
    requires { END ≤ length s.old }
    ensures { Does Testing s.old s.new (tested_as result (residual_at s.new rows.now))
        (true_residual (system_at s.old rows.now) (rhs_at s.old rows.now) tolerance (solution_at s.old rows.now) (residual_at s.old rows.now)) }
{
    let n = rows.count();
    if !within(s, n, tolerance)? {
        return Ok(false);
    }
    rows.operator(s, SOLUTION, PRODUCT)?;
    difference(s, RESIDUAL, RHS, PRODUCT, n);
    within(s, n, tolerance)
}

// The first half of a pass: along the direction as far as the curvature says.
fn advance(s: &mut [f64], rows: &Rows, rho: f64) -> Result<(), CollisionError>
    requires { END ≤ length s.old }
    ensures { Does Passing s.old s.new (leaving result (search_at s.new (count_of rows.now) rho))
        (advance_of (system_at s.old rows.now) (search_at s.old (count_of rows.now) rho)) }
{
    let n = rows.count();
    rows.operator(s, DIRECTION, PRODUCT)?;
    let curvature = dot(s, DIRECTION, PRODUCT, n)?;
    if curvature <= 0.0 || !is_finite(rho) {
        return Err(CollisionError::NonConvergent);
    }
    let alpha = rho / curvature;
    add_scaled(s, SOLUTION, SOLUTION, alpha, DIRECTION, n);
    // a - alpha * b is a + (-alpha) * b, bit for bit
    add_scaled(s, RESIDUAL, RESIDUAL, -alpha, PRODUCT, n);
    Ok(())
}

// The second half: none where it is over, or the next direction with its rho.
fn settle(
    s: &mut [f64],
    rows: &Rows,
    tolerance: f64,
    rho: f64,
) -> Result<Option<f64>, CollisionError>
    requires { END ≤ length s.old }
    ensures { Does Passing s.old s.new (search_as result s.new (count_of rows.now))
        (settle_of (system_at s.old rows.now) (rhs_at s.old rows.now) (diagonal_at s.old rows.now) tolerance (search_at s.old (count_of rows.now) rho)) }
{
    if true_residual(s, rows, tolerance)? {
        return Ok(None);
    }
    let n = rows.count();
    let next = scaled_square(s, n);
    next_direction(s, next / rho, n);
    Ok(Some(next))
}

// A pass, tested by the recurrence's residual first.
fn gradient_pass(
    s: &mut [f64],
    rows: &Rows,
    tolerance: f64,
    rho: f64,
) -> Result<Option<f64>, CollisionError>
    requires { END ≤ length s.old }
    ensures { Does Passing s.old s.new (search_as result s.new (count_of rows.now))
        (gradient_pass (system_at s.old rows.now) (rhs_at s.old rows.now) (diagonal_at s.old rows.now) tolerance (search_at s.old (count_of rows.now) rho)) }
{
    if within(s, rows.count(), tolerance)? {
        return Ok(None);
    }
    advance(s, rows, rho)?;
    settle(s, rows, tolerance, rho)
}

// The diagonal-scaled conjugate gradients.
pub(crate) fn gradients(
    s: &mut [f64],
    rows: &Rows,
    linear: &mut usize,
) -> Result<(), CollisionError>
    requires { (END ≤ length s.old) × (linear.old ≤ COUNT_MOST) }
    ensures { Counted s.old s.new rows.now linear.old linear.new result
        (λ system. gradients_of system (rhs_at s.old rows.now) (solution_at s.old rows.now) (residual_at s.old rows.now)) }
{
    let n = rows.count();
    let rho = prepare(s, rows)?;
    let tolerance = tolerance_for(s, 1.0e-12, n)?;
    search(s, 2 * n + 32, rho, linear, |s: &mut [f64], rho: f64| {
        gradient_pass(s, rows, tolerance, rho)
    })
}
