//! What a session file prints: its commands put to a cabinet, one line for each.
#![tactic(auto)]

mod lines;
mod perform;
pub mod print;
mod session;
