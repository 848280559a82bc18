// Document 01's questions 1 to 3, of the arrays that a caller lends: nothing is asked of them beforehand. Rows, offsets, columns and values are parameters
// and no struct, as `SymmetricMatrix::new` of the Rust takes them: each question, and its definition, reads some of the four and not the others.
ghost use Rattle.std.specs.Prelude.{◌≡◌, ◌+◌, ◌<◌, ◌≤◌, length};
ghost use Rattle.refusal.specs.Outcome.{verdict_of};
ghost use Rattle.csr.specs.Questions.{size_ok, never_fall, offsets_ok, entry_ok, row_ok, columns_ok, matrix_asked};
ghost use Rattle.csr.specs.Contract.{Rowed};

use refusal::Refusal;

// Question 1.
fn size_fits(rows: usize, columns: &[u32]) -> bool
    ensures { result ≡ size_ok rows columns.now }
{
    (rows <= 65536) & (columns.len() <= 1048576)
}

// Whether no row ends before it starts.
fn never_fall(rows: usize, offsets: &[u32]) -> bool
    requires { length offsets.now ≡ rows + 1 }
    ensures { result ≡ never_fall rows offsets.now }
{
    for row in 0..rows {
        if offsets[row] > offsets[row + 1] {
            return false;
        }
    }
    true
}

// Question 2. As question 1 has passed, rows + 1 does not wrap.
fn offsets_fit(rows: usize, offsets: &[u32], columns: &[u32], values: &[f64]) -> bool
    requires { rows ≤ 65536 }
    ensures { result ≡ offsets_ok rows offsets.now columns.now values.now }
{
    if offsets.len() != rows + 1 {
        return false;
    }
    (offsets[0] == 0)
        & never_fall(rows, offsets)
        & (store::wide(offsets[rows]) == columns.len())
        & (values.len() == columns.len())
}

// The last entry of a row has no next one to be compared with.
fn entry_fits(rows: usize, columns: &[u32], last: usize, entry: usize) -> bool
    requires lt_last { entry < last }
    requires last_in_bounds { last ≤ length columns.now }
    ensures { result ≡ entry_ok rows columns.now last entry }
{
    let column = columns[entry];
    let below = store::wide(column) < rows;
    if last <= entry + 1 {
        return below;
    }
    below & (column < columns[entry + 1])
}

// The entries of one row, from `first` up to `last`.
fn row_rises(rows: usize, columns: &[u32], first: usize, last: usize) -> bool
    requires first_le_last { first ≤ last }
    requires last_in_bounds { last ≤ length columns.now }
    ensures { result ≡ row_ok rows columns.now first last }
{
    (first..last).all(|entry| entry_fits(rows, columns, last, entry))
}

// Question 3. As question 2 has passed, each row lies among the entries.
fn columns_rise(rows: usize, offsets: &[u32], columns: &[u32]) -> bool
    requires { Rowed rows offsets.now columns.now }
    ensures { result ≡ columns_ok rows offsets.now columns.now }
{
    for row in 0..rows {
        let first = store::wide(offsets[row]);
        let last = store::wide(offsets[row + 1]);
        if !row_rises(rows, columns, first, last) {
            return false;
        }
    }
    true
}

// Questions 1 to 3, of a square matrix in compressed rows.
pub fn check_matrix(
    rows: usize,
    offsets: &[u32],
    columns: &[u32],
    values: &[f64],
) -> Result<(), Refusal>
    ensures { result ≡ verdict_of (matrix_asked rows offsets.now columns.now values.now) }
{
    if !size_fits(rows, columns) {
        return Err(refusal::TOO_LARGE);
    }
    if !offsets_fit(rows, offsets, columns, values) {
        return Err(refusal::BAD_OFFSETS);
    }
    if !columns_rise(rows, offsets, columns) {
        return Err(refusal::BAD_COLUMNS);
    }
    Ok(())
}
