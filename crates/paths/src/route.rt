//! What a search answers.

/// The places of a chain, the owner's grant first, and zeros behind the last one.
// stays: an array with a length, since an answer lies in fixed memory, without a heap, and its zeros are promised.
#[derive(Clone, Copy)]
pub struct Route {
    pub places: [u8; 8],
    pub length: usize,
}
