//! The writer of command records.
#![tactic(auto)]

mod pens;
pub mod writer;
