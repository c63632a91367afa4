//! An opened book: it borrows the caller's bytes, and holds only well-formed conditions.
ghost use Rattle.std.specs.Prelude.{◌≡◌};
ghost use Rattle.arrayvec.specs.ArrayVec.{array_vec_len};
ghost use Rattle.books.specs.Books.{Formed, Placed};

use arrayvec::ArrayVec;

/// The first fields of `bytes` are well-formed conditions, and `starts` tells where each of them
/// begins.
#[derive(Drop)]
pub struct Book<'a> {
    pub(crate) bytes: &'a [u8],
    pub(crate) starts: ArrayVec<u16, 1022>,
    ghost formed: { Formed bytes.now (array_vec_len starts) },
    ghost placed: { Placed bytes.now (array_vec_len starts) starts.items },
}
