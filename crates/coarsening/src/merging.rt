// Merged steps of `build` of hierarchy.rs: pairing stages combined into one stored level.
ghost use Rattle.std.specs.Prelude.{◌≡◌, length};
ghost use Rattle.refusal.specs.Outcome.{verdict_of};
ghost use Rattle.coefficients.specs.Update.{diagonal_asked};
ghost use Rattle.coarsening.specs.CoarsenContract.{merged_in};
ghost use Rattle.coarsening.specs.MergingContract.{MergeOk, MergeDone};
ghost use Rattle.coarsening.specs.Steps.{faces_in, graph_in, RowsOk, RowsAsked, PairOk, PairDone, JoinOk, JoinDone};

use crate::coarsen;
use crate::coarsen::{Formation, Held, Setup, Workspace};
use aggregation::Graph;
use faces::{Faces, diagonals};
use refusal::Refusal;

// What merged steps end with: the rows and entries of their matrix, and the pairings made so far.
#[derive(Clone, Copy)]
pub struct Merging {
    pub count: usize,
    pub entries: usize,
    pub stage: u64,
}

// The matrix that merged steps made last, in the temporaries.
fn merged_in(t: Workspace, last: Merging) -> Held
    ensures { result ≡ merged_in t last.count last.entries }
{
    Held {
        rows: last.count,
        entries: last.entries,
        offsets: t.merged_offsets,
        columns: t.merged_columns,
        values: t.merged_values,
        weights: t.merged_weights,
    }
}

// Its pattern, with room for the diagonal entries.
fn faces_in(t: Workspace, last: Merging) -> Faces
    ensures { result ≡ faces_in t last.count last.entries }
{
    Faces {
        rows: last.count,
        entries: last.entries,
        faces: 0,
        offsets: t.merged_offsets,
        columns: t.merged_columns,
        starts: t.starts,
        diagonals: t.diagonals,
        neighbors: t.neighbors,
        uppers: t.uppers,
        lowers: t.lowers,
    }
}

// The same for `pairs`: its weights, or its values where no weights are given, and the cap.
fn graph_in(x: Setup, last: Merging) -> Graph
    ensures { result ≡ graph_in x.workspace last.count last.entries x.given x.options.max_aggregate_cells }
{
    let t = x.workspace;
    Graph {
        rows: last.count,
        entries: last.entries,
        offsets: t.merged_offsets,
        columns: t.merged_columns,
        map: t.map,
        weights: if x.given {
            t.merged_weights
        } else {
            t.merged_values
        },
        absolute: !x.given,
        cap: x.options.max_aggregate_cells,
    }
}

// Questions 12 and 13 of a row whose diagonal is d.
fn check_row(d: f64, level: u64, row: u64) -> Result<(), Refusal>
    ensures { result ≡ verdict_of (diagonal_asked level row d) }
{
    if float::is_positive(d) {
        if float::is_finite(1.0 / d) {
            return Ok(());
        }
        return Err(Refusal {
            number: refusal::BAD_RECIPROCAL,
            level,
            row,
        });
    }
    Err(Refusal {
        number: refusal::BAD_DIAGONAL,
        level,
        row,
    })
}

// The same of every row, by the diagonal entries at `places`.
fn check_rows(
    w: &[u32],
    f: &[f64],
    rows: usize,
    entries: usize,
    places: usize,
    values: usize,
    level: u64,
) -> Result<(), Refusal>
    requires { RowsOk w.now (length f.now) rows entries places values }
    ensures { RowsAsked w.now f.now rows entries places values level result }
{
    for row in 0..rows {
        let entry = store::index_at(w, places, row, entries);
        check_row(f[values + entry], level, row as u64)?;
    }
    Ok(())
}

// A step up to the pairing, which goes to the temporary map: the number of aggregates, or none where few rows are coupled.
fn pair(
    w: &mut [u32],
    f: &[f64],
    x: Setup,
    last: Merging,
    level: u64,
) -> Result<Option<usize>, Refusal>
    requires { PairOk w.old (length f.now) x.workspace last.count last.entries }
    ensures { PairDone x.options x.given w.old w.new f.now
        x.workspace last.count last.entries last.stage level result }
{
    let t = x.workspace;
    let s = faces_in(t, last);
    // The answer is known: a merged matrix has every diagonal entry.
    let _ = diagonals::diagonals(w, s, level);
    check_rows(
        w,
        f,
        last.count,
        last.entries,
        t.diagonals,
        t.merged_values,
        level,
    )?;
    let coupled = faces::coupled_count(w, s);
    if coupled as u64 <= x.options.coarsest_cells {
        return Ok(None);
    }
    let g = graph_in(x, last);
    let joined = aggregation::pairs(w, f, g, last.stage % 2 == 0);
    Ok(Some(joined))
}

// A step after a pairing: the level's map follows it, and the matrix of the aggregates takes the place of the last.
fn join(
    w: &mut [u32],
    f: &mut [f64],
    x: Setup,
    rows: usize,
    map: usize,
    last: Merging,
    joined: usize,
) -> Formation
    requires { JoinOk w.old (length f.old) x.workspace rows map last.count last.entries joined }
    ensures { JoinDone x.given w.old w.new f.old f.new
        x.workspace rows map last.count last.entries joined result }
{
    let t = x.workspace;
    pattern::compose(w, rows, map, t.map, last.count);
    let m = merged_in(t, last);
    coarsen::step(w, f, x, m, t.map, joined)
}

// At most so many merged steps from the matrix made last, at the level being formed.
pub fn merge(
    w: &mut [u32],
    f: &mut [f64],
    x: Setup,
    rows: usize,
    map: usize,
    last: Merging,
    steps: u64,
    level: u64,
) -> Result<Merging, Refusal>
    requires { MergeOk w.old (length f.old) x.workspace rows map last.count last.entries last.stage steps }
    ensures { MergeDone x.options x.given w.old w.new f.old f.new
        x.workspace rows map last.count last.entries last.stage steps level result }
{
    if steps == 0 {
        return Ok(last);
    }
    let found = pair(w, f, x, last, level)?;
    let Some(joined) = found else {
        return Ok(last);
    };
    if joined == last.count {
        return Ok(Merging {
            stage: last.stage + 1,
            ..last
        });
    }
    let made = join(w, f, x, rows, map, last, joined);
    if !made.finite {
        return Err(refusal::BAD_COARSE_VALUE);
    }
    let next = Merging {
        count: joined,
        entries: made.entries,
        stage: last.stage + 1,
    };
    merge(w, f, x, rows, map, next, steps - 1, level)
}
