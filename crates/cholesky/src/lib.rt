// `cholesky` of hierarchy.rs over the compact matrix of coarse.rs. Rows without connections never enter the factor, which is
// a lower triangle packed by rows, so that two of them fit the store.
#![tactic(auto)]

ghost use Rattle.std.specs.Prelude.{◌≡◌, ◌-◌, ◌<◌, ◌≤◌, length};
ghost use Rattle.store.specs.Region.{idx, Wrote};
ghost use Rattle.cholesky.specs.Triangle.{tri};
ghost use Rattle.cholesky.specs.TriangleContract.{RowAt};
ghost use Rattle.cholesky.specs.Factor.{seek_of, columns_of, rest_of, factor_row_of, rows_of, cholesky_of};
ghost use Rattle.cholesky.specs.Contract.{csr_at, coupled_at, factor_at, entry_at, TerminalOk, SeekOk, PivotOk, Factored};
ghost use Rattle.refusal.specs.declared.Refusal.{Refusal};
ghost use Rattle.refusal.specs.Refusal.{bad_pivot};

use refusal::Refusal;

pub mod packed;
pub mod triangular;

pub use packed::triangle;
pub use triangular::solve_factor;

// The terminal level in the stores: its matrix of `rows` rows and `entries` entries, its `size` coupled rows, the factor.
// Places alone: that they lie in the stores, and that the words there are in range, is `TerminalOk`, which `entry` to `cholesky` ask.
// No invariant could say so of a value that holds no store.
#[derive(Clone, Copy)]
pub struct Terminal {
    pub rows: usize,
    pub entries: usize,
    pub offsets: usize,
    pub columns: usize,
    pub values: usize,
    pub size: usize,
    pub coupled: usize,
    pub factor: usize,
}

// The value of the entry with that column among those from `from` up to `to`; zero where there is none.
fn seek(w: &[u32], f: &[f64], t: Terminal, from: usize, to: usize, column: usize) -> f64
    requires { SeekOk (length w.now) (length f.now) t to }
    ensures { result ≡ seek_of (csr_at t w.now f.now) column (to - from) from }
{
    for e in from..to {
        if store::wide(w[t.columns + e]) == column {
            return f[t.values + e];
        }
    }
    0.0
}

// An entry of the compact matrix: that of the level at the coupled rows.
fn entry(w: &[u32], f: &[f64], t: Terminal, row: usize, column: usize) -> f64
    requires terminal_ok { TerminalOk w.now (length f.now) t }
    requires row_lt_size { row < t.size }
    requires column_le_row { column ≤ row }
    ensures { result ≡ entry_at t w.now f.now row column }
{
    let own = store::index_at(w, t.coupled, row, t.rows);
    let other = store::wide(w[t.coupled + column]);
    let from = store::wide(w[t.offsets + own]);
    let to = store::wide(w[t.offsets + own + 1]);
    seek(w, f, t, from, to, other)
}

// The elements below the diagonal of a row, which starts at `start`.
// Row and start stay two numbers here, in `pivot` and in `one_row`: `RowAt` bounds them by the triangle's rows, which a pair of them
// would have to hold too.
fn columns(w: &[u32], f: &mut [f64], t: Terminal, row: usize, start: usize)
    requires terminal_ok { TerminalOk w.now (length f.old) t }
    requires row_at { RowAt t.size row start }
    ensures { Wrote t.factor (tri t.size)
        (columns_of (entry_at t w.now f.old) row (factor_at t f.old))
        f.old f.new }
{
    let l = t.factor;
    let mut own = 0;
    for column in 0..row {
        let a = entry(w, f, t, row, column);
        let value = packed::less(f, l + start, l + own, column, a);
        f[l + start + column] = value / f[l + own + column];
        own += column + 1;
    }
}

// The pivot of a row, before its root.
fn pivot(w: &[u32], f: &[f64], t: Terminal, row: usize, start: usize) -> f64
    requires terminal_ok { TerminalOk w.now (length f.now) t }
    requires row_at { RowAt t.size row start }
    ensures { result ≡ rest_of (entry_at t w.now f.now) row row (factor_at t f.now) }
{
    let l = t.factor;
    let a = entry(w, f, t, row, row);
    packed::less(f, l + start, l + start, row, a)
}

// The refusal of a pivot names its row of the level.
fn bad_pivot(w: &[u32], t: Terminal, level: u64, row: usize) -> Refusal
    requires { PivotOk w.now t row }
    ensures { result ≡ bad_pivot level (idx (coupled_at t w.now) row) }
{
    Refusal {
        number: refusal::BAD_PIVOT,
        level,
        row: u64::from(w[t.coupled + row]),
    }
}

// One row, refused where its pivot fails question 15.
fn one_row(
    w: &[u32],
    f: &mut [f64],
    t: Terminal,
    level: u64,
    row: usize,
    start: usize,
) -> Result<(), Refusal>
    requires terminal_ok { TerminalOk w.now (length f.old) t }
    requires row_at { RowAt t.size row start }
    ensures { Factored t
        (factor_row_of level (coupled_at t w.now) (entry_at t w.now f.old) row
        (factor_at t f.old))
        f.old f.new result }
{
    columns(w, f, t, row, start);
    let value = pivot(w, f, t, row, start);
    if !float::is_positive(value) {
        return Err(bad_pivot(w, t, level, row));
    }
    let root = float::sqrt(value);
    f[t.factor + start + row] = root;
    Ok(())
}

// Every row in order, over a triangle of zeros.
fn factor_rows(w: &[u32], f: &mut [f64], t: Terminal, level: u64) -> Result<(), Refusal>
    requires { TerminalOk w.now (length f.old) t }
    ensures { Factored t
        (rows_of level (coupled_at t w.now) (entry_at t w.now f.old) t.size 0
        (factor_at t f.old))
        f.old f.new result }
{
    let mut start = 0;
    for row in 0..t.size {
        one_row(w, f, t, level, row, start)?;
        start += row + 1;
    }
    Ok(())
}

// The factor of the compact matrix. A pivot that fails is told by its row of the level.
pub fn cholesky(w: &[u32], f: &mut [f64], t: Terminal, level: u64) -> Result<(), Refusal>
    requires { TerminalOk w.now (length f.old) t }
    ensures { Factored t
        (cholesky_of level (csr_at t w.now f.old) t.size (coupled_at t w.now))
        f.old f.new result }
{
    let end = packed::triangle(t.size);
    store::fill(f, t.factor, end, 0.0);
    factor_rows(w, f, t, level)
}
