//! The frame of a session file: its parts, and one command behind another.
#![tactic(auto)]

pub mod layout;
pub mod parts;
