//! The reader of command records: fields, tokens, drafts.
#![tactic(auto)]

mod drafts;
pub mod fields;
pub mod reader;
mod tokens;
mod values;
