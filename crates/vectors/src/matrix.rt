// A matrix of three columns of three doubles, an array of arrays in a struct. `ZERO`, `new` and `to_columns` alone reach into
// it; every other function is over them.
ghost use Rattle.std.specs.Prelude.{◌≡◌, not, ◌<◌, min};
ghost use Rattle.vectors.specs.Matrix as Matrix;
ghost use Rattle.vectors.specs.Matrix.{mat_of, from_cols, transposed, transpose_of, finite_mat, apply_of, mat_product_of};
ghost use Rattle.vectors.specs.Matrix.{factor_spd_of, mat_largest_of, column_of, factor_solve_of, not_symmetric, correction_of};
ghost use Rattle.vectors.specs.Matrix.{above_zero, entry_of, factor_row_of, factor_of, forward_of, backward_of};
ghost use Rattle.arith.specs.Flow.{leaving};
ghost use Rattle.vectors.specs.Matrix.{inverse_by, inverse_spd_of};

use crate::vector::Vec3;
use arith::number::{abs, is_finite, max};
use arith::root::sqrt;

// 32 times epsilon, which is 2^-47.
const SYMMETRY_TOLERANCE: f64 = 7.105427357601002e-15;

#[derive(Clone, Copy)]
pub struct Mat3 {
    pub columns: [[f64; 3]; 3],
}

// Why there is no factor, or no solution.
#[derive(Clone, Copy, Debug, PartialEq, Eq)]
pub enum CholeskyError {
    NonFiniteInput,
    NotSymmetric,
    NotPositiveDefinite,
    ResultOutOfRange,
}

// The Cholesky factor of a matrix divided by its largest magnitude, `scale`. Above the diagonal it is 0.
#[derive(Clone, Copy)]
struct Cholesky3 {
    pub lower: Mat3,
    pub scale: f64,
}

impl Mat3 {
    pub const ZERO: Mat3 = Mat3 {
        columns: [[0.0; 3]; 3],
    };

    pub(crate) fn new(columns: [[f64; 3]; 3]) -> Mat3
        ensures { result ≡ mat_of columns }
    {
        Mat3 { columns }
    }

    pub fn to_columns(self) -> [[f64; 3]; 3]
        ensures { result ≡ self.columns }
    {
        self.columns
    }

    pub fn from_cols(x: Vec3, y: Vec3, z: Vec3) -> Mat3
        ensures { result ≡ from_cols x y z }
    {
        Mat3::new([[x.x, x.y, x.z], [y.x, y.y, y.z], [z.x, z.y, z.z]])
    }

    fn from_rows(rows: [[f64; 3]; 3]) -> Mat3
        ensures { result ≡ mat_of (transposed rows) }
    {
        Mat3::new(transposed(rows))
    }

    fn to_rows(self) -> [[f64; 3]; 3]
        ensures { result ≡ transposed self.columns }
    {
        transposed(self.to_columns())
    }

    // The column of an index; an index above 2 has the last.
    pub fn column(self, index: usize) -> Vec3
        ensures { result ≡ column_of self (min index 2) }
    {
        let c = self.to_columns();
        if index < 2 {
            return Vec3 {
                x: c[index][0],
                y: c[index][1],
                z: c[index][2],
            };
        }
        Vec3 {
            x: c[2][0],
            y: c[2][1],
            z: c[2][2],
        }
    }

    pub fn transpose(self) -> Mat3
        ensures { result ≡ transpose_of self }
    {
        Mat3::new(transposed(self.to_columns()))
    }

    pub fn is_finite(self) -> bool
        ensures { result ≡ finite_mat self }
    {
        self.column(0).is_finite() && self.column(1).is_finite() && self.column(2).is_finite()
    }

    // The columns times the components, summed from the left.
    pub fn apply(self, rhs: Vec3) -> Vec3
        ensures { result ≡ apply_of self rhs }
    {
        let c = self.to_columns();
        Vec3 {
            x: c[0][0] * rhs.x + c[1][0] * rhs.y + c[2][0] * rhs.z,
            y: c[0][1] * rhs.x + c[1][1] * rhs.y + c[2][1] * rhs.z,
            z: c[0][2] * rhs.x + c[1][2] * rhs.y + c[2][2] * rhs.z,
        }
    }

    #[tactic(auto, unfolding(crate::specs::Matrix::mat_product_of))]
    pub fn product(self, rhs: Mat3) -> Mat3
        ensures { result ≡ mat_product_of self rhs }
    {
        Mat3::from_cols(
            self.apply(rhs.column(0)),
            self.apply(rhs.column(1)),
            self.apply(rhs.column(2)),
        )
    }

    // The factor of a finite matrix that is positive definite and, once divided by its largest magnitude, symmetric within
    // 32 epsilon.
    #[tactic(auto, using(arith::specs::Literals::literals), unfolding(crate::specs::Matrix::factor_spd_of, arith::specs::Flow::and_then))]
    fn factor_spd(self) -> Result<Cholesky3, CholeskyError>
        ensures { result ≡ factor_spd_of self }
    {
        if !self.is_finite() {
            return Err(CholeskyError::NonFiniteInput);
        }
        let scale = self.largest();
        if scale == 0.0 {
            return Err(CholeskyError::NotPositiveDefinite);
        }
        let normalized = divided(self.to_rows(), scale);
        if !symmetric(&normalized) {
            return Err(CholeskyError::NotSymmetric);
        }
        let mut lower = [[0.0; 3]; 3];
        factor(&normalized, &mut lower)?;
        Ok(Cholesky3 {
            lower: Mat3::from_rows(lower),
            scale,
        })
    }

    // The largest magnitude, from +0, column by column.
    #[tactic(auto, using(arith::specs::Literals::literals))]
    fn largest(self) -> f64
        ensures { result ≡ mat_largest_of self }
    {
        let first = larger(0.0, self.column(0));
        let second = larger(first, self.column(1));
        larger(second, self.column(2))
    }
}

impl Cholesky3 {
    // Forward and back substitution.
    #[tactic(auto, unfolding(crate::specs::Matrix::factor_solve_of, arith::specs::Flow::and_then))]
    fn solve(self, rhs: Vec3) -> Result<Vec3, CholeskyError>
        ensures { result ≡ factor_solve_of self rhs }
    {
        if !rhs.is_finite() {
            return Err(CholeskyError::NonFiniteInput);
        }
        let normalized_rhs = rhs.div(self.scale);
        if !normalized_rhs.is_finite() {
            return Err(CholeskyError::ResultOutOfRange);
        }
        let lower = self.lower.to_rows();
        let solution = backward(&lower, forward(&lower, normalized_rhs));
        if !solution.is_finite() {
            return Err(CholeskyError::ResultOutOfRange);
        }
        Ok(solution)
    }

    // The inverse of the factored matrix, column by column.
    #[tactic(auto, using(arith::specs::Literals::literals), unfolding(crate::specs::Matrix::inverse_by, arith::specs::Flow::and_then))]
    fn inverse(self) -> Result<Mat3, CholeskyError>
        ensures { result ≡ inverse_by (factor_solve_of self) }
    {
        let x = self.solve(Vec3::X)?;
        let y = self.solve(Vec3::Y)?;
        let z = self.solve(Vec3::Z)?;
        let inverse = Mat3::from_cols(x, y, z);
        if !inverse.is_finite() {
            return Err(CholeskyError::ResultOutOfRange);
        }
        Ok(inverse)
    }
}

// Columns from rows, or rows from columns.
fn transposed(c: [[f64; 3]; 3]) -> [[f64; 3]; 3]
    ensures { result ≡ Matrix.transposed c }
{
    [
        [c[0][0], c[1][0], c[2][0]],
        [c[0][1], c[1][1], c[2][1]],
        [c[0][2], c[1][2], c[2][2]],
    ]
}

fn larger(scale: f64, v: Vec3) -> f64
    ensures { result ≡ Matrix.larger scale v }
{
    max(max(max(scale, abs(v.x)), abs(v.y)), abs(v.z))
}

fn divided(rows: [[f64; 3]; 3], scale: f64) -> [[f64; 3]; 3]
    ensures { result ≡ Matrix.divided rows scale }
{
    [
        [rows[0][0] / scale, rows[0][1] / scale, rows[0][2] / scale],
        [rows[1][0] / scale, rows[1][1] / scale, rows[1][2] / scale],
        [rows[2][0] / scale, rows[2][1] / scale, rows[2][2] / scale],
    ]
}

// Whether two mirrored numbers differ by more than 32 epsilon.
#[tactic(auto, using(arith::specs::Literals::literals))]
fn uneven(a: f64, b: f64) -> bool
    ensures { result ≡ Matrix.uneven a b }
{
    abs(a - b) > SYMMETRY_TOLERANCE
}

fn symmetric(n: &[[f64; 3]; 3]) -> bool
    ensures { result ≡ not (not_symmetric n.now) }
{
    !uneven(n[1][0], n[0][1]) && !uneven(n[2][0], n[0][2]) && !uneven(n[2][1], n[1][2])
}

// The products of the entries before `column` of two rows of the factor, summed from +0.
#[tactic(auto, using(arith::specs::Literals::literals), unfolding(crate::specs::Matrix::correction_of))]
fn correction(lower: &[[f64; 3]; 3], row: usize, column: usize) -> f64
    requires { (row < 3) × (column < 3) }
    ensures { result ≡ correction_of lower.now row column }
{
    (0..column).fold(0.0, |total, k| total + lower[row][k] * lower[column][k])
}

#[tactic(auto, using(arith::specs::Literals::literals))]
fn above_zero(x: f64) -> bool
    ensures { result ≡ above_zero x }
{
    is_finite(x) && x > 0.0
}

// One entry of the factor, after those before it. A pivot that is not finite and above 0 is refused.
#[tactic(auto, unfolding(crate::specs::Matrix::entry_of))]
fn enter(
    n: &[[f64; 3]; 3],
    lower: &mut [[f64; 3]; 3],
    row: usize,
    column: usize,
) -> Result<(), CholeskyError>
    requires { (row < 3) × (column < 3) }
    ensures { leaving result lower.new ≡ entry_of n.now row column lower.old }
{
    let value = n[row][column] - correction(lower, row, column);
    if row != column {
        lower[row][column] = value / lower[column][column];
        return Ok(());
    }
    if !above_zero(value) {
        return Err(CholeskyError::NotPositiveDefinite);
    }
    lower[row][column] = sqrt(value);
    Ok(())
}

fn factor_row(n: &[[f64; 3]; 3], lower: &mut [[f64; 3]; 3], row: usize) -> Result<(), CholeskyError>
    requires { row < 3 }
    ensures { leaving result lower.new ≡ factor_row_of n.now row lower.old }
{
    for column in 0..row + 1 {
        enter(n, lower, row, column)?;
    }
    Ok(())
}

// The lower factor of the rows n, row by row.
fn factor(n: &[[f64; 3]; 3], lower: &mut [[f64; 3]; 3]) -> Result<(), CholeskyError>
    ensures { leaving result lower.new ≡ factor_of n.now lower.old }
{
    for row in 0..3usize {
        factor_row(n, lower, row)?;
    }
    Ok(())
}

fn forward(l: &[[f64; 3]; 3], v: Vec3) -> Vec3
    ensures { result ≡ forward_of l.now v }
{
    let x = v.x / l[0][0];
    let y = (v.y - l[1][0] * x) / l[1][1];
    let z = (v.z - l[2][0] * x - l[2][1] * y) / l[2][2];
    Vec3 { x, y, z }
}

fn backward(l: &[[f64; 3]; 3], v: Vec3) -> Vec3
    ensures { result ≡ backward_of l.now v }
{
    let z = v.z / l[2][2];
    let y = (v.y - l[2][1] * z) / l[1][1];
    let x = (v.x - l[1][0] * y - l[2][0] * z) / l[0][0];
    Vec3 { x, y, z }
}

// The inverse of a symmetric positive definite matrix. The Rust factors the matrix for each column; once does, since the factor
// is the same.
#[tactic(auto, using(crate::proofs::Once::unfactored, crate::proofs::Once::factored))]
pub fn inverse_spd(matrix: Mat3) -> Result<Mat3, CholeskyError>
    ensures { result ≡ inverse_spd_of matrix }
{
    matrix.factor_spd()?.inverse()
}
