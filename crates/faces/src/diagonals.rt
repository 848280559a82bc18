// The diagonal entries of `SymmetricMatrix::new` of matrix.rs: each is found in its row, and a matrix that lacks one is refused.
ghost use Rattle.faces.specs.Contract.{DiagonalsOk, DiagonalsDone};

use crate::faces::Faces;
use crate::mirrors::entry_at;
use refusal::Refusal;

// `diagonal_entries`, row by row: question 11.
pub fn diagonals(w: &mut [u32], s: Faces, level: u64) -> Result<(), Refusal>
    requires { DiagonalsOk w.old s }
    ensures { DiagonalsDone w.old w.new s level result }
{
    for row in 0..s.rows {
        if let Some(e) = entry_at(w, s, row, row) {
            w[s.diagonals + row] = e as u32;
        } else {
            return Err(Refusal {
                number: refusal::MISSING_DIAGONAL,
                level,
                row: row as u64,
            });
        }
    }
    Ok(())
}
