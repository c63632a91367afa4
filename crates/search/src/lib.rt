//! The chain that justifies a draw, and whether grants stand, over every language. Each pair of
//! grants puts its question to the language at most once for a call, and the search itself none.
#![tactic(auto)]

mod asked;
mod linked;
pub mod named;
mod record;
pub mod search;
