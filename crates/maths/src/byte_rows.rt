ghost use Rattle.std.specs.Prelude.{◌≡◌, ◌/◌, length, map, IfOk};
ghost use Rattle.maths.specs.ByteRows.{row_at, rows_to};

use crate::table::Row;
use std::alloc::{AllocError, Global};

/// How many bytes a row has.
pub const ROW_BYTES: usize = 9;

/// The rows that the bytes hold, nine bytes each; a last piece of less than nine is left out.
#[tactic(auto, using(crate::proofs::Chunks::rows_of_chunks))]
pub fn decoded(heap: Global, bytes: &[u8]) -> Result<Vec<Row>, AllocError>
    ensures { IfOk result (λ v. v.items ≡ rows_to bytes.now (length bytes.now / 9)) }
{
    let (pieces, _) = bytes.as_chunks();
    rows(heap, pieces)
}

fn rows(heap: Global, pieces: &[[u8; 9]]) -> Result<Vec<Row>, AllocError>
    ensures { IfOk result (λ v. v.items ≡ map (λ p. row_at p 0) pieces.now) }
{
    pieces.iter().copied().map(row).collect(heap)
}

// The row that nine bytes say.
pub(crate) fn row(bytes: [u8; 9]) -> Row
    ensures { result ≡ row_at bytes 0 }
{
    let [function, a, b, c, d, w, x, y, z] = bytes;
    Row {
        function,
        argument: u32::from_be_bytes([a, b, c, d]),
        answer: u32::from_be_bytes([w, x, y, z]),
    }
}
