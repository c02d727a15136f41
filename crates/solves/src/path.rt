// `path_solve` of solver.rs, along an order of the rows (`order`). A path's Schur matrix is block tridiagonal once its rows
// are ordered along the path, so that a Cholesky factor of band 12 solves it.
ghost use Rattle.std.specs.Prelude.{◌≡◌, ◌+◌, ◌-◌, ◌≤◌, ◌<◌, min, length, ℕ};
ghost use Rattle.arith.specs.Flow.{leaving};
ghost use Rattle.arith.specs.Run.{up_to};
ghost use Rattle.rows.specs.Fault.{NonConvergent};
ghost use Rattle.solves.specs.Solver.{cross_mass};
ghost use Rattle.solves.specs.Path.{row_of, path_scale, less_products, reduced as reduced_of, path_entry, path_row};
ghost use Rattle.solves.specs.Path.{path_factor, path_factored, forward_sum, forward as forward_of, backward_sum};
ghost use Rattle.solves.specs.Path.{backward as backward_of, refine as refine_of};
ghost use Rattle.solves.specs.Answer.{Counted};
ghost use Rattle.solves.specs.PathView.{along, Bands, sweep};
ghost use Rattle.solves.specs.PathView.{place_of, line_at, InLine, LinesIn, row_line, column_line, side_line};
ghost use Rattle.solves.specs.Region.{vec_at, Does};
ghost use Rattle.solves.specs.View.{band_at, factor_at, refined_at, Refining, Factoring};
ghost use Rattle.solves.specs.View.{SOLUTION, PATH_SCALE, PATH_RHS, END, Beside, COUNT_MOST};
ghost use Rattle.solves.specs.Search.{refinement, path_along};
ghost use Rattle.solves.specs.View.{count_of, system_at, rhs_at, solution_at, residual_at, order_in};

use crate::gradients::within;
use crate::joined::Path;
use crate::layout::{
    BAND_WIDTH, PATH_BAND, PATH_RHS, PATH_SCALE, PRODUCT, RESIDUAL, RHS, SOLUTION,
};
use crate::operator::{cross_mass, tolerance_for};
use crate::values::{copy, difference};
use arith::fault::CollisionError;
use arith::number::is_finite;
use arith::root::sqrt;
use rows::geometry::clear;

// Doubles of a sum: the place of the first, and how far on or back the next one lies.
#[derive(Clone, Copy)]
pub(crate) struct Line {
    pub first: usize,
    pub on: usize,
    pub back: usize,
}

impl Line {
    // The band's `[i][i - k]`, for k from `from` on.
    fn row(i: usize, from: usize) -> Line
        requires { (i < 96) × (from ≤ i) }
        ensures { result ≡ row_line i from }
    {
        Line {
            first: PATH_BAND + BAND_WIDTH * i + (i - from),
            on: 0,
            back: 1,
        }
    }

    // The band's `[k][k - i]`, for k from `from` on.
    fn column(i: usize, from: usize) -> Line
        requires { (from ≤ 96) × (i ≤ from) }
        ensures { result ≡ column_line i from }
    {
        Line {
            first: PATH_BAND + BAND_WIDTH * from + (from - i),
            on: BAND_WIDTH + 1,
            back: 0,
        }
    }

    // The right side from `from` on.
    fn side(from: usize) -> Line
        requires { from ≤ 96 }
        ensures { result ≡ side_line from }
    {
        Line {
            first: PATH_RHS + from,
            on: 1,
            back: 0,
        }
    }

    fn place(self, k: usize) -> usize
        requires { InLine self k }
        ensures { result ≡ place_of self k }
    {
        self.first + self.on * k - self.back * k
    }
}

// `start` less the products of two lines, one after the other: the three sums of the Rust.
fn less_products(s: &[f64], start: f64, a: Line, b: Line, terms: usize) -> f64
    requires { LinesIn s.now a b terms }
    ensures { result ≡ less_products (line_at s.now a) (line_at s.now b) terms start }
{
    (0..terms).fold(start, |value, k| value - s[a.place(k)] * s[b.place(k)])
}

// The first column of row i's band.
fn band_start(i: usize) -> usize
    ensures { result ≡ i - 11 }
{
    if i < BAND_WIDTH {
        return 0;
    }
    i - (BAND_WIDTH - 1)
}

// The Schur matrix's entry at places i and j of the order.
fn cross_at(s: &[f64], path: &Path, i: usize, j: usize) -> Result<f64, CollisionError>
    requires { (END ≤ length s.now) × (i < count_of path.now.rows) × (j < count_of path.now.rows) }
    ensures { result ≡ along s.now path.now (λ r m o. cross_mass (row_of r m o i) (row_of r m o j) m) }
{
    let a = path.rows.load(s, path.order[i]);
    let b = path.rows.load(s, path.order[j]);
    cross_mass(s, a, b)
}

fn path_scale(s: &mut [f64], path: &Path) -> Result<(), CollisionError>
    requires { END ≤ length s.old }
    ensures { Does (Beside PATH_SCALE) s.old s.new (leaving result (vec_at s.new PATH_SCALE (count_of path.now.rows)))
        (along s.old path.now path_scale (count_of path.now.rows)) }
{
    for i in 0..path.rows.count() {
        let value = cross_at(s, path, i, i)?;
        if value <= 0.0 {
            return Err(CollisionError::NonConvergent);
        }
        s[PATH_SCALE + i] = sqrt(value);
    }
    Ok(())
}

// The entry less the products of the columns before it.
fn reduced(s: &[f64], entry: f64, i: usize, j: usize) -> f64
    requires { (END ≤ length s.now) × (i < 96) × (j ≤ i) × (i ≤ j + 11) }
    ensures { (n : ℕ) → i < n → result ≡ reduced_of (band_at s.now n) i j entry }
{
    let from = band_start(i);
    less_products(s, entry, Line::row(i, from), Line::row(j, from), j - from)
}

fn path_entry(s: &mut [f64], path: &Path, i: usize, j: usize) -> Result<(), CollisionError>
    requires { (END ≤ length s.old) × (i < count_of path.now.rows) × (j ≤ i) × (i ≤ j + 11) }
    ensures { Bands s.old s.new path.now result (λ rows masses order scale. path_entry rows masses order scale i j) }
{
    let entry = cross_at(s, path, i, j)?;
    let value = reduced(s, entry / (s[PATH_SCALE + i] * s[PATH_SCALE + j]), i, j);
    if j == i {
        if !is_finite(value) || value <= 0.0 {
            return Err(CollisionError::NonConvergent);
        }
        s[PATH_BAND + BAND_WIDTH * i] = sqrt(value);
    } else {
        s[PATH_BAND + BAND_WIDTH * i + (i - j)] = value / s[PATH_BAND + BAND_WIDTH * j];
    }
    Ok(())
}

fn path_row(s: &mut [f64], path: &Path, i: usize) -> Result<(), CollisionError>
    requires { (END ≤ length s.old) × (i < count_of path.now.rows) }
    ensures { Bands s.old s.new path.now result (λ rows masses order scale. path_row rows masses order scale i) }
{
    for j in band_start(i)..i + 1 {
        path_entry(s, path, i, j)?;
    }
    Ok(())
}

fn path_factor(s: &mut [f64], path: &Path) -> Result<(), CollisionError>
    requires { END ≤ length s.old }
    ensures { Bands s.old s.new path.now result (λ rows masses order scale _. path_factor rows masses order scale (count_of path.now.rows)) }
{
    let n = path.rows.count();
    clear(s, PATH_BAND, BAND_WIDTH * n);
    for i in 0..n {
        path_row(s, path, i)?;
    }
    Ok(())
}

fn forward_sum(s: &[f64], start: f64, i: usize) -> f64
    requires { (END ≤ length s.now) × (i < 96) }
    ensures { (n : ℕ) → i < n → result ≡ forward_sum (band_at s.now n) (vec_at s.now PATH_RHS i) i start }
{
    let from = band_start(i);
    less_products(s, start, Line::row(i, from), Line::side(from), i - from)
}

fn forward(s: &mut [f64], path: &Path)
    requires { END ≤ length s.old }
    ensures { Does (Beside PATH_RHS) s.old s.new (vec_at s.new PATH_RHS (count_of path.now.rows))
        (sweep s.old path.now forward_of (residual_at s.old path.now.rows)) }
{
    let n = path.rows.count();
    for i in 0..n {
        let start = s[RESIDUAL + path.order[i]] / s[PATH_SCALE + i];
        let value = forward_sum(s, start, i);
        s[PATH_RHS + i] = value / s[PATH_BAND + BAND_WIDTH * i];
    }
}

fn band_end(i: usize, n: usize) -> usize
    requires { i < 96 }
    ensures { result ≡ min n (i + 12) }
{
    if i + BAND_WIDTH < n {
        return i + BAND_WIDTH;
    }
    n
}

fn backward_sum(s: &[f64], start: f64, i: usize, n: usize) -> f64
    requires { (END ≤ length s.now) × (n ≤ 96) × (i < n) }
    ensures { result ≡ backward_sum n (band_at s.now n) (vec_at s.now PATH_RHS n) i start }
{
    let from = i + 1;
    less_products(
        s,
        start,
        Line::column(i, from),
        Line::side(from),
        band_end(i, n) - from,
    )
}

// From the last row to the first, with the correction added to the solution.
fn backward(s: &mut [f64], path: &Path)
    requires { END ≤ length s.old }
    ensures { Does (λ i. (Beside PATH_RHS i) × (Beside SOLUTION i)) s.old s.new (solution_at s.new path.now.rows)
        (sweep s.old path.now backward_of (vec_at s.old PATH_RHS (count_of path.now.rows)) (solution_at s.old path.now.rows)) }
{
    let n = path.rows.count();
    for i in (0..n).rev() {
        let value = backward_sum(s, s[PATH_RHS + i], i, n) / s[PATH_BAND + BAND_WIDTH * i];
        s[PATH_RHS + i] = value;
        let at = SOLUTION + path.order[i];
        s[at] = s[at] + value / s[PATH_SCALE + i];
    }
}

fn path_factored(s: &mut [f64], path: &Path) -> Result<(), CollisionError>
    requires { END ≤ length s.old }
    ensures { Does Factoring s.old s.new (leaving result (factor_at s.new (count_of path.now.rows)))
        (along s.old path.now path_factored (count_of path.now.rows)) }
{
    path_scale(s, path)?;
    path_factor(s, path)
}

// One refinement, up to the new residual.
fn refine(s: &mut [f64], path: &Path) -> Result<(), CollisionError>
    requires { END ≤ length s.old }
    ensures { Does Refining s.old s.new (leaving result (refined_at s.new (count_of path.now.rows)))
        (refine_of (system_at s.old path.now.rows) (rhs_at s.old path.now.rows) (order_in path.now)
        (factor_at s.old (count_of path.now.rows)) (refined_at s.old (count_of path.now.rows))) }
{
    forward(s, path);
    backward(s, path);
    path.rows.operator(s, SOLUTION, PRODUCT)?;
    difference(s, RESIDUAL, RHS, PRODUCT, path.rows.count());
    Ok(())
}

// At most 4 refinements, each counted once its residual is known.
fn refinements(
    s: &mut [f64],
    path: &Path,
    tolerance: f64,
    linear: &mut usize,
) -> Result<(), CollisionError>
    requires { (END ≤ length s.old) × (linear.old ≤ COUNT_MOST) }
    ensures { Counted s.old s.new path.now.rows linear.old linear.new result (λ system.
        up_to 4 NonConvergent (refinement system (rhs_at s.old path.now.rows) (order_in path.now) (factor_at s.old (count_of path.now.rows)) tolerance)
        (refined_at s.old (count_of path.now.rows))) }
{
    for _ in 0..4usize {
        refine(s, path)?;
        *linear += 1;
        if within(s, path.rows.count(), tolerance)? {
            return Ok(());
        }
    }
    Err(CollisionError::NonConvergent)
}

// The path's solve along an order of the rows, from the right side as residual.
pub(crate) fn path_along(
    s: &mut [f64],
    path: &Path,
    linear: &mut usize,
) -> Result<(), CollisionError>
    requires { (END ≤ length s.old) × (linear.old ≤ COUNT_MOST) }
    ensures { Counted s.old s.new path.now.rows linear.old linear.new result
        (λ system. path_along system (rhs_at s.old path.now.rows) (solution_at s.old path.now.rows) (order_in path.now)) }
{
    let n = path.rows.count();
    path_factored(s, path)?;
    let tolerance = tolerance_for(s, 1.0e-12, n)?;
    copy(s, RESIDUAL, RHS, n);
    refinements(s, path, tolerance, linear)
}
