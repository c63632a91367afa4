//! The book: conditions written as bytes, numbered from 2.
#![tactic(auto)]

pub mod book;
pub mod field;
mod formula;
mod item;
pub mod open;
mod stack;
