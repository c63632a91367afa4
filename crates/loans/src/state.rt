//! Where the key of a hook is, and what can happen to it.

/// Where the key of a hook is.
#[derive(Clone, Copy, Debug, PartialEq, Eq)]
pub enum HookState {
    /// On its hook.
    In,
    /// On its hook, and promised to this person.
    Promised(u8),
    /// Gone.
    Out,
}

/// What can happen to a key, with the person that it is done for.
#[derive(Clone, Copy, Debug, PartialEq, Eq)]
pub enum Event {
    Draw(u8),
    Take(u8),
    Leave(u8),
    Return,
}
