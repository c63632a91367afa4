//! A plain enumeration of chains, to compare with.
ghost use Rattle.std.specs.Prelude.{◌≤◌};

use chains::chain::{Draw, serves, supports};
use conditions::language::Language;
use grants::Grant;
use search::named::Named;

/// The first chain of just `want` grants that serves, by trying every grant behind every chain. The
/// chain stands at the end of `stack`, the newest grant first, and `have` grants of it are there.
fn dig<L: Language>(
    language: &L,
    grants: &[Grant],
    draw: &Draw,
    stack: &mut [Grant; 8],
    have: usize,
    want: usize,
) -> bool
    requires have { have ≤ want }
    requires want { want ≤ 8 }
{
    if have == want {
        return serves(language, &stack[8 - have..8], draw);
    }
    for grant in grants {
        if grant.hook == draw.hook && supports(language, &stack[8 - have..8], draw.owner, grant) {
            stack[7 - have] = *grant;
            if dig(language, grants, draw, stack, have + 1, want) {
                return true;
            }
        }
    }
    false
}

/// The numbers of the first chain that serves, the oldest first, or none; shorter chains first.
pub(crate) fn first_chain<L: Language>(
    language: &L,
    grants: &[Grant],
    draw: &Draw,
) -> Option<Named> {
    for want in 0..9 {
        let mut stack = [Grant::blank(); 8];
        if dig(language, grants, draw, &mut stack, 0, want) {
            let mut numbers = [0u32; 8];
            for (number, grant) in numbers[..want].iter_mut().zip(stack.iter().rev()) {
                *number = grant.number;
            }
            return Some(Named {
                numbers,
                length: want,
            });
        }
    }
    None
}
