// The linear solves of the constrained integrator: solver.rs below `solve`, over one lent scratch.
// Rows stand in the scratch, and the bodies of each row in two lists beside it: together they are `Rows` (joined.rt). The step
// makes the lists once and lends them with either of its two tables of rows.
#![tactic(auto)]

mod gradients;
pub mod joined;
pub mod layout;
mod least_squares;
pub mod operator;
mod order;
mod path;
pub mod places;
mod search;
pub mod solver;
mod values;
