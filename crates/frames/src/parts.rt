//! The parts of a session file, each a part of its bytes.

/// What stands before the commands, and the commands.
#[derive(Clone, Copy)]
pub struct SetUp<'a> {
    pub owners: &'a [u8],
    pub kept: u8,
    pub book: &'a [u8],
    pub commands: &'a [u8],
}
