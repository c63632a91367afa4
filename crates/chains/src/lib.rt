//! Chains of grants: what one is, what it justifies, and the tests of both.
#![tactic(auto)]

pub mod chain;
