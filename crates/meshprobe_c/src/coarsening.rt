// From a level to the next coarser one: the functions of `aggregation`, `pattern` and `galerkin`.
ghost use Rattle.std.specs.Prelude.{◌+◌, length};
ghost use Rattle.store.specs.Region.{part, Wrote};
ghost use Rattle.aggregation.specs.Pairs.{pairs_of};
ghost use Rattle.aggregation.specs.Layout.{weighted_at, GraphOk, Paired};
ghost use Rattle.pattern.specs.Pattern.{compose_of};
ghost use Rattle.pattern.specs.Coarsening.{PatternOk, Patterned, ComposeOk};
ghost use Rattle.galerkin.specs.Values.{sums_of, symmetrize_of};
ghost use Rattle.galerkin.specs.Contract.{restrict_weights_of, SumsOk, GivenOk, FacesOk, WeightsOk};
ghost use Rattle.export.specs.Flat.{is_set};
ghost use Rattle.meshprobe_c.specs.Mesh.{graph_of, coarsening_of};

use aggregation::Graph;
use galerkin::CoarseRows;
use pattern::Coarsening;

#[unsafe(no_mangle)]
pub extern "C" fn probe_pairs(
    w: &mut [u32],
    f: &[f64],
    rows: usize,
    entries: usize,
    offsets: usize,
    columns: usize,
    map: usize,
    weights: usize,
    absolute: u8,
    forward: u8,
    cap: u64,
) -> usize
    requires { GraphOk w.old (length f.now) (graph_of rows entries offsets columns map weights absolute cap) }
    ensures { Paired (graph_of rows entries offsets columns map weights absolute cap)
        (pairs_of (weighted_at (graph_of rows entries offsets columns map weights absolute cap) w.old f.now) (is_set forward))
        w.old w.new result }
{
    let g = Graph {
        rows,
        entries,
        offsets,
        columns,
        map,
        weights,
        absolute: absolute != 0,
        cap,
    };
    aggregation::pairs(w, f, g, forward != 0)
}

#[unsafe(no_mangle)]
pub extern "C" fn probe_coarse_pattern(
    w: &mut [u32],
    rows: usize,
    entries: usize,
    count: usize,
    offsets: usize,
    columns: usize,
    map: usize,
    positions: usize,
    coarse_offsets: usize,
    coarse_columns: usize,
    scratch: usize,
) -> usize
    requires { PatternOk w.old
        (coarsening_of rows entries count offsets columns map positions coarse_offsets coarse_columns scratch) }
    ensures { Patterned w.old w.new
        (coarsening_of rows entries count offsets columns map positions coarse_offsets coarse_columns scratch) result }
{
    let c = Coarsening {
        rows,
        entries,
        count,
        offsets,
        columns,
        map,
        positions,
        coarse_offsets,
        coarse_columns,
        scratch,
    };
    pattern::coarse_pattern(w, c)
}

#[unsafe(no_mangle)]
pub extern "C" fn probe_compose(w: &mut [u32], n: usize, map: usize, next: usize, count: usize)
    requires { ComposeOk w.old n map next count }
    ensures { Wrote map n
        (compose_of n (part map n w.old) (part next count w.old))
        w.old w.new }
{
    pattern::compose(w, n, map, next, count);
}

#[unsafe(no_mangle)]
pub extern "C" fn probe_sum_entries(
    w: &[u32],
    f: &mut [f64],
    m: usize,
    positions: usize,
    values: usize,
    total: usize,
    out: usize,
)
    requires { SumsOk w.now (length f.old) m positions values total out }
    ensures { Wrote out total
        (sums_of total m (part positions m w.now) (part values m f.old))
        f.old f.new }
{
    galerkin::sum_entries(w, f, m, positions, values, total, out);
}

#[unsafe(no_mangle)]
pub extern "C" fn probe_sum_given(
    w: &[u32],
    given: &[f64],
    f: &mut [f64],
    m: usize,
    positions: usize,
    total: usize,
    out: usize,
)
    requires { GivenOk w.now (length f.old) (length given.now) m positions total out }
    ensures { Wrote out total
        (sums_of total m (part positions m w.now) given.now)
        f.old f.new }
{
    galerkin::sum_given(w, given, f, m, positions, total, out);
}

#[unsafe(no_mangle)]
pub extern "C" fn probe_symmetrize(
    w: &[u32],
    f: &mut [f64],
    faces: usize,
    upper: usize,
    lower: usize,
    total: usize,
    values: usize,
)
    requires { FacesOk w.now (length f.old) faces upper lower total values }
    ensures { Wrote values total
        (symmetrize_of faces (part upper faces w.now) (part lower faces w.now)
        (part values total f.old))
        f.old f.new }
{
    galerkin::symmetrize(w, f, faces, upper, lower, total, values);
}

#[unsafe(no_mangle)]
pub extern "C" fn probe_restrict_weights(
    w: &[u32],
    f: &mut [f64],
    count: usize,
    m: usize,
    positions: usize,
    offsets: usize,
    columns: usize,
    weights: usize,
    total: usize,
    out: usize,
)
    requires { WeightsOk w.now (length f.old) count m positions offsets columns weights total out }
    ensures { Wrote out total
        (restrict_weights_of total m (part positions m w.now) (part weights m f.old)
        count (part offsets (count + 1) w.now) (part columns total w.now))
        f.old f.new }
{
    let s = CoarseRows {
        count,
        entries: total,
        offsets,
        columns,
    };
    galerkin::restrict_weights(w, f, m, positions, weights, s, out);
}
