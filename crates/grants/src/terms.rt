//! The terms of a grant.
use crate::Mode;
use states::report::Report;

/// What a giver lays down for a grant: its two conditions by number and its mode; and the state that
/// he reports, in which the grant is made.
#[derive(Clone, Copy, Debug, PartialEq, Eq)]
pub struct Terms {
    pub execute: u16,
    pub onward: u16,
    pub mode: Mode,
    pub report: Report,
}
