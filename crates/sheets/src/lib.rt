//! The sheet: conditions as rows of hours, days, groups, panel and a barred receiver.
#![tactic(auto)]

pub mod row;
pub mod rows;
pub mod sheet;
