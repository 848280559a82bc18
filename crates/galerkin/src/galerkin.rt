// The values of the coarse matrix: `galerkin` of aggregation.rs once its pattern is known, and `symmetrize_coarse_values` of
// matrix.rs, over regions of the stores.
ghost use Rattle.std.specs.Prelude.{length};
ghost use Rattle.store.specs.Region.{part, Wrote};
ghost use Rattle.galerkin.specs.Values.{sums_of, symmetrize_of};
ghost use Rattle.galerkin.specs.Contract.{SumsOk, FacesOk};

use store::index_at;

mod given;

pub use given::sum_given;

// The sums of the m fine values by position, from plus zero. An entry whose values cancel stays, so that the pattern
// does not depend on the values.
pub fn sum_entries(
    w: &[u32],
    f: &mut [f64],
    m: usize,
    positions: usize,
    values: usize,
    total: usize,
    out: usize,
)
    requires { SumsOk w.now (length f.old) m positions values total out }
    ensures { Wrote out total
        (sums_of total m (part positions m w.now) (part values m f.old))
        f.old f.new }
{
    let (fine, coarse) = f.split_at_mut(out);
    sum_given(w, &fine[values..values + m], coarse, m, positions, total, 0);
}

// Both entries of each face become half of the one plus half of the other. It is not skipped where they are equal:
// half of a subnormal rounds.
pub fn symmetrize(
    w: &[u32],
    f: &mut [f64],
    faces: usize,
    upper: usize,
    lower: usize,
    total: usize,
    values: usize,
)
    requires { FacesOk w.now (length f.old) faces upper lower total values }
    ensures { Wrote values total
        (symmetrize_of faces (part upper faces w.now) (part lower faces w.now) (part values total f.old))
        f.old f.new }
{
    for k in 0..faces {
        let i = index_at(w, upper, k, total);
        let j = index_at(w, lower, k, total);
        let mean = 0.5 * f[values + i] + 0.5 * f[values + j];
        f[values + i] = mean;
        f[values + j] = mean;
    }
}
