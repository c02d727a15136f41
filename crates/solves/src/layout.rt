// Where the scratch keeps what: one region behind the other, as in specs/Layout.antt. Behind `END` a caller lays its own.
use rows::geometry::ROW;

// The most rows and the most bodies of a solve.
pub const ROWS_MOST: usize = 96;

pub const BODIES_MOST: usize = 16;
// The doubles of a body's mass response, of its share, and of a row of the path's band.
pub(crate) const MASS: usize = 10;

pub(crate) const SHARE: usize = 6;

pub(crate) const BAND_WIDTH: usize = 12; // At most two adjacent six-row joints on a path.

// The rows at the start of the step, and those of the candidate. The caller writes both, a solve neither.
pub const START_ROWS: usize = 0;

pub const ROWS: usize = START_ROWS + ROWS_MOST * ROW;
// The mass response of each body, and the right side: the caller writes them, a solve neither.
pub const MASSES: usize = ROWS + ROWS_MOST * ROW;

pub const RHS: usize = MASSES + BODIES_MOST * MASS;
// The solution, and what a solve works in.
pub const SOLUTION: usize = RHS + ROWS_MOST;

pub(crate) const RESIDUAL: usize = SOLUTION + ROWS_MOST;

pub(crate) const DIRECTION: usize = RESIDUAL + ROWS_MOST;

pub(crate) const PRODUCT: usize = DIRECTION + ROWS_MOST;

pub(crate) const DIAGONAL: usize = PRODUCT + ROWS_MOST;

pub(crate) const NORMAL: usize = DIAGONAL + ROWS_MOST;
// Linear and angular share of each body.
pub const GENERALIZED: usize = NORMAL + ROWS_MOST;
// The band of the path's factor, and two vectors beside it.
pub(crate) const PATH_BAND: usize = GENERALIZED + BODIES_MOST * SHARE;

pub(crate) const PATH_SCALE: usize = PATH_BAND + ROWS_MOST * BAND_WIDTH;

pub(crate) const PATH_RHS: usize = PATH_SCALE + ROWS_MOST;

pub const END: usize = PATH_RHS + ROWS_MOST;
