// The coarse matrix of a step of the build (`galerkin` of aggregation.rs as `build` of hierarchy.rs calls it): pattern, values and
// weights, in temporaries at the ends of the stores.
ghost use Rattle.std.specs.Prelude.{length};
ghost use Rattle.coarsening.specs.CoarsenContract.{StepOk, Stepped, RepairOk, Repaired};
ghost use Rattle.coarsening.specs.CoarsenContract.{CoupleOk, Coupled, TotalOk, Totaled, Formed, WeighOk, Weighed};
ghost use Rattle.coarsening.specs.CoarsenContract.{SettleOk, Settled, FloatsOk, Floats};

use faces::mirrors::mirrors;
use faces::{Faces, face_offsets, fill_faces};
use galerkin::{CoarseRows, restrict_weights, sum_entries, symmetrize};
use options::MultigridOptions;
use pattern::{Coarsening, coarse_pattern};
use store::copy;
use vector::all_finite;

// A matrix in the stores: its pattern in the words, its values and weights in the floats.
#[derive(Clone, Copy)]
pub struct Held {
    pub rows: usize,
    pub entries: usize,
    pub offsets: usize,
    pub columns: usize,
    pub values: usize,
    pub weights: usize,
}

// The temporaries, each with room for `rows` rows or `entries` entries: the next level's matrix, the one that merged steps made
// last with the aggregates of a merged step, and the one that is being formed with the positions of its entries and its faces.
#[derive(Clone, Copy)]
pub struct Workspace {
    pub rows: usize,
    pub entries: usize,
    pub offsets: usize,
    pub columns: usize,
    pub merged_offsets: usize,
    pub merged_columns: usize,
    pub map: usize,
    pub positions: usize,
    pub coarse_offsets: usize,
    pub coarse_columns: usize,
    pub scratch: usize,
    pub starts: usize,
    pub diagonals: usize,
    pub neighbors: usize,
    pub uppers: usize,
    pub lowers: usize,
    pub values: usize,
    pub weights: usize,
    pub merged_values: usize,
    pub merged_weights: usize,
    pub coarse_values: usize,
    pub coarse_weights: usize,
}

// What the setup of a hierarchy works with: the controls, the temporaries, and whether weights are given, by which it then pairs.
// No Option of a place: weights have theirs in the temporaries either way, and `mesh_at` and `coarsened` go by the flag.
#[derive(Clone, Copy)]
pub struct Setup {
    pub options: MultigridOptions,
    pub workspace: Workspace,
    pub given: bool,
}

// The entries of a coarse matrix, and whether all its values are finite: question 18.
// No Option: `Stepped` and `Repaired` promise the matrix and the number of its entries where a value is not finite too.
#[derive(Clone, Copy)]
pub struct Formation {
    pub entries: usize,
    pub finite: bool,
}

// The faces of the matrix being formed, with the entry and the mirror of each; how many there are. Its pattern is mirrored, so that
// no entry is without its mirror.
fn couple(w: &mut [u32], count: usize, entries: usize, t: Workspace) -> usize
    requires { CoupleOk w.old count entries t }
    ensures { Coupled w.old w.new count entries t result }
{
    let mut s = Faces {
        rows: count,
        entries,
        faces: 0,
        offsets: t.coarse_offsets,
        columns: t.coarse_columns,
        starts: t.starts,
        diagonals: t.diagonals,
        neighbors: t.neighbors,
        uppers: t.uppers,
        lowers: t.lowers,
    };
    let faces = face_offsets(w, s);
    s.faces = faces;
    fill_faces(w, s);
    mirrors(w, s);
    faces
}

// Its values: the sums of the fine ones, then half plus half; whether all are finite.
fn total(w: &[u32], f: &mut [f64], m: Held, t: Workspace, entries: usize, faces: usize) -> bool
    requires { TotalOk w.now (length f.old) m t entries faces }
    ensures { Totaled w.now f.old f.new m t entries faces result }
{
    sum_entries(
        w,
        f,
        m.entries,
        t.positions,
        m.values,
        entries,
        t.coarse_values,
    );
    symmetrize(w, f, faces, t.uppers, t.lowers, entries, t.coarse_values);
    all_finite(f, entries, t.coarse_values)
}

// `galerkin`: its pattern, the positions of the fine entries in it, and its values.
fn form(w: &mut [u32], f: &mut [f64], m: Held, map: usize, count: usize, t: Workspace) -> Formation
    requires { StepOk w.old (length f.old) m map count t }
    ensures { Formed w.old w.new f.old f.new m map count t result }
{
    let c = Coarsening {
        rows: m.rows,
        entries: m.entries,
        count,
        offsets: m.offsets,
        columns: m.columns,
        map,
        positions: t.positions,
        coarse_offsets: t.coarse_offsets,
        coarse_columns: t.coarse_columns,
        scratch: t.scratch,
    };
    let entries = coarse_pattern(w, c);
    let faces = couple(w, count, entries, t);
    let finite = total(w, f, m, t, entries, faces);
    Formation { entries, finite }
}

// Its weights, where weights are given.
fn weigh(w: &[u32], f: &mut [f64], x: Setup, m: Held, count: usize, entries: usize)
    requires { WeighOk w.now (length f.old) m count x.workspace entries }
    ensures { Weighed w.now f.old f.new m count x.workspace entries x.given }
{
    if x.given {
        let t = x.workspace;
        let s = CoarseRows {
            count,
            entries,
            offsets: t.coarse_offsets,
            columns: t.coarse_columns,
        };
        restrict_weights(w, f, m.entries, t.positions, m.weights, s, t.coarse_weights);
    }
}

// Its pattern, copied to where offsets and columns are to stand.
fn settle_words(
    w: &mut [u32],
    count: usize,
    entries: usize,
    t: Workspace,
    offsets: usize,
    columns: usize,
)
    requires { SettleOk (length w.old) count entries t offsets columns }
    ensures { Settled w.old w.new count entries t offsets columns }
{
    copy(w, count + 1, t.coarse_offsets, offsets);
    copy(w, entries, t.coarse_columns, columns);
}

// n values and, where they are given, n weights, copied to where they are to stand. A flag and no Option of places: weights have theirs
// either way, and `Floats` says by the flag what is copied.
fn settle_floats(
    f: &mut [f64],
    n: usize,
    values: usize,
    weights: usize,
    to: usize,
    beside: usize,
    given: bool,
)
    requires { FloatsOk (length f.old) n values weights to beside }
    ensures { Floats f.old f.new n values weights to beside given }
{
    copy(f, n, values, to);
    if given {
        copy(f, n, weights, beside);
    }
}

// A merged step: the coarse matrix of m, with its weights, goes to where merged steps keep theirs. No one function with `repair`, which keeps
// the positions and takes the weights that merged steps made: what each leaves, `Stepped` and `Repaired` say apart.
pub fn step(w: &mut [u32], f: &mut [f64], x: Setup, m: Held, map: usize, count: usize) -> Formation
    requires { StepOk w.old (length f.old) m map count x.workspace }
    ensures { Stepped w.old w.new f.old f.new x.given m map count x.workspace result }
{
    let t = x.workspace;
    let r = form(w, f, m, map, count, t);
    weigh(w, f, x, m, count, r.entries);
    settle_words(w, count, r.entries, t, t.merged_offsets, t.merged_columns);
    settle_floats(
        f,
        r.entries,
        t.coarse_values,
        t.coarse_weights,
        t.merged_values,
        t.merged_weights,
        x.given,
    );
    r
}

// The coarse matrix of a level by its composed map: it becomes the next level's, with the weights that merged steps made, and the
// level keeps the positions of its entries.
pub fn repair(
    w: &mut [u32],
    f: &mut [f64],
    x: Setup,
    m: Held,
    map: usize,
    count: usize,
    to: usize,
) -> Formation
    requires { RepairOk w.old (length f.old) m map count x.workspace to }
    ensures { Repaired w.old w.new f.old f.new x.given m map count x.workspace to result }
{
    let t = x.workspace;
    let r = form(w, f, m, map, count, t);
    copy(w, m.entries, t.positions, to);
    settle_words(w, count, r.entries, t, t.offsets, t.columns);
    settle_floats(
        f,
        r.entries,
        t.coarse_values,
        t.merged_weights,
        t.values,
        t.weights,
        x.given,
    );
    r
}
