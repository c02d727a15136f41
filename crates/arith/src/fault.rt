// How a call fails.

// The Rust's CollisionError, as far as it occurs.
#[derive(Clone, Copy, Debug, PartialEq, Eq)]
pub enum CollisionError {
    NonConvergent,
    ArithmeticOverflow,
}
