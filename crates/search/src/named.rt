//! What a draw is told.

/// The numbers of a chain's grants, the oldest first, and zeros behind the last one.
// stays: an array with a length, since an answer lies in fixed memory, without a heap, and its zeros are promised.
#[derive(Clone, Copy, Debug, PartialEq, Eq)]
pub struct Named {
    pub numbers: [u32; 8],
    pub length: usize,
}
