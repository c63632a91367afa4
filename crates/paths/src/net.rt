//! What one search goes by.
ghost use Rattle.paths.specs.Memories.{Ready};

use crate::plan::Plan;

/// A plan with its target and the places that a search may use, `base`: `last` has the places that
/// lead to the target, and `near[k]` every place after which the target may be `k` steps away.
#[derive(Drop)]
pub(crate) struct Net<'a> {
    pub plan: &'a Plan,
    pub near: [u128; 8],
    pub target: u8,
    pub last: u128,
    pub base: u128,
    ghost ready: { Ready plan.now near target last base },
}
