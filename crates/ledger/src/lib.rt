//! The ledger: the grants on record with what they are judged by, and the calls that alter it.
#![tactic(auto)]

mod calls;
pub mod held;
mod sweeps;
