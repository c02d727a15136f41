// Bodies in motion and the equality rows of their joints: body.rs and geometry.rs of joint/constrained.
#![tactic(auto)]

pub mod body;
pub mod geometry;
