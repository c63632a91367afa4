//! The best chain of grants from an owner to a person, over places: fast on every record, with no
//! heap, and no deeper than eight calls.
#![tactic(auto)]

pub mod links;
mod memory;
mod net;
pub mod plan;
pub mod route;
mod search;
mod walk;

pub use places::without;
