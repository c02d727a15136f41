// `least_squares` of solver.rs: conjugate gradients on the normal equations. A ring's operator can be singular; this finds
// a reaction of least residual. It stops on the normal residual, so its success does not mean that the rows are solved.
ghost use Rattle.std.specs.Prelude.{◌≤◌, length};
ghost use Rattle.solves.specs.Search.{least_pass, least_squares};
ghost use Rattle.solves.specs.Answer.{search_as, Counted};
ghost use Rattle.solves.specs.Region.{Does};
ghost use Rattle.solves.specs.View.{search_at, count_of, system_at, rhs_at, solution_at, residual_at, Passing, COUNT_MOST, END};

use crate::joined::Rows;
use crate::layout::{DIRECTION, NORMAL, PRODUCT, RESIDUAL, SOLUTION};
use crate::operator::{dot, tolerance_for};
use crate::search::search;
use crate::values::{add_scaled, copy};
use arith::fault::CollisionError;
use arith::root::sqrt;

// A pass of conjugate gradients on the normal equations, tested first: none where it is over, or the next norm.
fn least_pass(
    s: &mut [f64],
    rows: &Rows,
    tolerance: f64,
    norm: f64,
) -> Result<Option<f64>, CollisionError>
    requires { END ≤ length s.old }
    ensures { Does Passing s.old s.new (search_as result s.new (count_of rows.now))
        (least_pass (system_at s.old rows.now) tolerance (search_at s.old (count_of rows.now) norm)) }
{
    let n = rows.count();
    if sqrt(norm) <= tolerance {
        return Ok(None);
    }
    rows.operator(s, DIRECTION, PRODUCT)?;
    let denominator = dot(s, PRODUCT, PRODUCT, n)?;
    if denominator <= 0.0 {
        return Err(CollisionError::NonConvergent);
    }
    let alpha = norm / denominator;
    add_scaled(s, SOLUTION, SOLUTION, alpha, DIRECTION, n);
    // a - alpha * b is a + (-alpha) * b, bit for bit
    add_scaled(s, RESIDUAL, RESIDUAL, -alpha, PRODUCT, n);
    rows.operator(s, RESIDUAL, NORMAL)?;
    let next = dot(s, NORMAL, NORMAL, n)?;
    add_scaled(s, DIRECTION, NORMAL, next / norm, DIRECTION, n);
    Ok(Some(next))
}

pub(crate) fn least_squares(
    s: &mut [f64],
    rows: &Rows,
    linear: &mut usize,
) -> Result<(), CollisionError>
    requires { (END ≤ length s.old) × (linear.old ≤ COUNT_MOST) }
    ensures { Counted s.old s.new rows.now linear.old linear.new result
        (λ system. least_squares system (rhs_at s.old rows.now) (solution_at s.old rows.now) (residual_at s.old rows.now)) }
{
    let n = rows.count();
    rows.operator(s, RESIDUAL, NORMAL)?;
    let norm = dot(s, NORMAL, NORMAL, n)?;
    let tolerance = tolerance_for(s, 1.0e-14, n)?;
    copy(s, DIRECTION, NORMAL, n);
    search(s, 4 * n + 64, norm, linear, |s: &mut [f64], norm: f64| {
        least_pass(s, rows, tolerance, norm)
    })
}
