// Vectors, matrices and quaternions of doubles: the operations that bodies, rows and solves call.
// Operators are methods that take and return values; what can fail answers an Option or a Result.
#![tactic(auto)]

pub mod matrix;
mod normal;
pub mod quaternion;
pub mod vector;
