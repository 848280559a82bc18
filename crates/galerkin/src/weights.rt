// `restrict_weights` of hierarchy.rs, over regions of the stores.
ghost use Rattle.std.specs.Prelude.{◌+◌, length};
ghost use Rattle.store.specs.Region.{part, Wrote};
ghost use Rattle.galerkin.specs.Values.{zero_diagonal_of};
ghost use Rattle.galerkin.specs.Turns.{zero_entries};
ghost use Rattle.galerkin.specs.Contract.{restrict_weights_of, EntriesOk, RowsOk, WeightsOk};

use crate::galerkin::sum_entries;
use store::wide;

// The rows of the coarse matrix: how many, how many entries they have, and where their offsets and columns stand in the words.
#[derive(Clone, Copy)]
pub struct CoarseRows {
    pub count: usize,
    pub entries: usize,
    pub offsets: usize,
    pub columns: usize,
}

// The diagonal entry among those from lo to hi, which are the row's, becomes zero.
fn zero_entries(
    w: &[u32],
    f: &mut [f64],
    s: CoarseRows,
    row: usize,
    lo: usize,
    hi: usize,
    out: usize,
)
    requires { EntriesOk w.now (length f.old) hi s.columns s.entries out }
    ensures { Wrote out s.entries
        (zero_entries (part s.columns s.entries w.now) row lo hi (part out s.entries f.old))
        f.old f.new }
{
    for e in lo..hi {
        if wide(w[s.columns + e]) == row {
            f[out + e] = 0.0;
        }
    }
}

// The diagonal entries of all rows become zero.
fn zero_diagonal(w: &[u32], f: &mut [f64], s: CoarseRows, out: usize)
    requires { RowsOk w.now (length f.old) s.count s.offsets s.columns s.entries out }
    ensures { Wrote out s.entries
        (zero_diagonal_of s.count (part s.offsets (s.count + 1) w.now) (part s.columns s.entries w.now) (part out s.entries f.old))
        f.old f.new }
{
    for row in 0..s.count {
        let lo = wide(w[s.offsets + row]);
        let hi = wide(w[s.offsets + row + 1]);
        zero_entries(w, f, s, row, lo, hi, out);
    }
}

// The weights of the coarse entries: those of the m fine entries, summed by position, and zero on the diagonal.
pub fn restrict_weights(
    w: &[u32],
    f: &mut [f64],
    m: usize,
    positions: usize,
    weights: usize,
    s: CoarseRows,
    out: usize,
)
    requires { WeightsOk w.now (length f.old) s.count m positions s.offsets s.columns weights s.entries out }
    ensures { Wrote out s.entries
        (restrict_weights_of s.entries m (part positions m w.now) (part weights m f.old)
        s.count (part s.offsets (s.count + 1) w.now) (part s.columns s.entries w.now))
        f.old f.new }
{
    sum_entries(w, f, m, positions, weights, s.entries, out);
    zero_diagonal(w, f, s, out);
}
