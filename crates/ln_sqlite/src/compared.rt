//! Whether the rows that a query shows are those of a copy.

ghost use Rattle.std.specs.Prelude.{◌≡◌, IsTrue};
ghost use Rattle.sqlite_value.specs.Order.{column};
ghost use Rattle.sqlite_value.specs.declared.value.Value.TheVariants.{Blob};
ghost use Rattle.ln_sqlite.specs.Shown.{ShowsBody};

use crate::rows::bytes_in;
use ln_bytes::Bytes;
use sqlite::Row;

/// Whether the first column of a row has these bytes.
pub(crate) fn shows(row: &Row, bytes: &[u8]) -> bool
    ensures { IsTrue result → column row.now 0 ≡ Blob bytes.now }
{
    match bytes_in(row, 0) {
        Some(shown) => shown == bytes,
        None => false,
    }
}

/// Whether the rows show the bytes that are kept, or none where none are.
pub(crate) fn is_copy(rows: &[Row], kept: &Option<Bytes>) -> bool
    ensures { IsTrue result → ShowsBody rows.now kept.now }
{
    match (rows, kept) {
        ([], None) => true,
        ([row], Some(kept)) => shows(row, kept.as_slice()),
        _ => false,
    }
}
