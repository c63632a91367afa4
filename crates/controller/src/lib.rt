//! The cabinet over any condition language: its eight calls, and whole runs of them.
#![tactic(auto)]

pub mod cabinet;
mod calls;
pub mod run;
pub mod slip;
