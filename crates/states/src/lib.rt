//! States: eight variables, each known or unknown.
#![tactic(auto)]

pub mod range;
pub mod report;
pub mod state;
