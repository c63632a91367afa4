//! A sheet: at most 64 rows.
ghost use Rattle.std.specs.Prelude.{◌≤◌};
ghost use Rattle.arrayvec.specs.ArrayVec.{array_vec_len};

use crate::row::Row;
use arrayvec::ArrayVec;

/// The rows in the order in which they were added.
#[derive(Drop)]
pub struct Sheet {
    pub(crate) rows: ArrayVec<Row, 64>,
    ghost few: { array_vec_len rows ≤ 64 },
}
