// Where the scratch keeps what is the step's own, behind the regions of a linear solve: as in specs/Layout.antt.
use solves::layout::{BODIES_MOST, END, ROWS_MOST};

// The doubles of scratch that a step asks for.
pub const SCRATCH: usize = 6144;
// The scratch itself: all regions lie in it.
pub(crate) type Scratch = [f64; SCRATCH];
// The doubles of a body's record.
pub const RECORD: usize = 26;
// What moves of a body in a step: centre, rotation, momentum and spin.
pub(crate) const MOVING: usize = 13;
// The impulse of each row: only the nonlinear loop touches them.
pub(crate) const IMPULSES: usize = END;
// The bodies at the start, written once, and what moves of the candidates, written in each pass.
pub(crate) const START: usize = IMPULSES + ROWS_MOST;

pub(crate) const CANDIDATE: usize = START + BODIES_MOST * RECORD;
