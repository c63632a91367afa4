//! Condition languages: what one is, and the layers that stand over any of them.
#![tactic(auto)]

pub mod distrust;
pub mod joined;
pub mod language;
pub mod lent;
pub mod truth;
