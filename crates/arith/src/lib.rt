// The archive's arithmetic: one fixed formula for each function, so that every rerun gives the same bits.
#![tactic(auto)]

pub mod angle;
pub mod fault;
mod near_one;
pub mod number;
mod remainder;
pub mod root;
