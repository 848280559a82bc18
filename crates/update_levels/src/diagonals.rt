// Question 11 of one level of `update` of hierarchy.rs: the stored position of each row's diagonal is the row's diagonal entry.
ghost use Rattle.std.specs.Prelude.{◌≡◌, ◌<◌, length};
ghost use Rattle.store.specs.Region.{idx};
ghost use Rattle.store.specs.Vector.{each};
ghost use Rattle.refusal.specs.Outcome.{verdict_of};
ghost use Rattle.update_levels.specs.Standing.{diagonal_stands, diagonals_stand};
ghost use Rattle.update_levels.specs.StandingContract.{RowsOk, RowOk, bare_at};

use layout::Place;
use refusal::Refusal;

// The word at i as an index.
fn word_at(w: &[u32], i: usize) -> usize
    requires { i < length w.now }
    ensures { result ≡ idx w.now i }
{
    store::wide(w[i])
}

// Whether the stored position of a row's diagonal is the row's diagonal entry.
fn diagonal_stands(w: &[u32], p: Place, row: usize) -> bool
    requires { RowOk w.now p row }
    ensures { result ≡ diagonal_stands (bare_at w.now p) row }
{
    let entry = store::index_at(w, p.diagonals, row, p.entries);
    let start = p.offsets + row;
    let first = word_at(w, start);
    let end = word_at(w, start + 1);
    let column = word_at(w, p.columns + entry);
    (first <= entry) & (entry < end) & (column == row)
}

// Whether those of all rows are. No branch leaves the loop, so that it takes several rows at once.
pub fn all_stand(w: &[u32], p: Place) -> bool
    requires { RowsOk w.now p }
    ensures { result ≡ each (diagonal_stands (bare_at w.now p)) p.rows }
{
    let mut ok = true;
    for row in 0..p.rows {
        ok = ok & diagonal_stands(w, p, row);
    }
    ok
}

// Question 11, row by row, which finds the first row that fails.
pub fn rows_stand(w: &[u32], p: Place, level: u64) -> Result<(), Refusal>
    requires { RowsOk w.now p }
    ensures { result ≡ verdict_of (diagonals_stand level (bare_at w.now p)) }
{
    for row in 0..p.rows {
        if !diagonal_stands(w, p, row) {
            return Err(Refusal {
                number: refusal::MISSING_DIAGONAL,
                level,
                row: row as u64,
            });
        }
    }
    Ok(())
}
