// The plan file: its layout, its records, and its reader.
#![tactic(auto)]

mod kind;
mod layout;
pub mod reader;
mod records;
