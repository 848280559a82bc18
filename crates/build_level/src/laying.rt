// A level of `build` of hierarchy.rs is laid at its place: pattern, faces, values and coefficients (`SymmetricMatrix::new`), and its
// aggregates are chosen.
ghost use Rattle.std.specs.Prelude.{◌≡◌, ◌||◌, [], ◌∷◌, ◌+◌, ◌≤◌, eqb, leb, length};
ghost use Rattle.store.specs.Region.{Wrote};
ghost use Rattle.build_level.specs.LayingContract.{FrontierOk, Laid, ChooseOk, Chosen};
ghost use Rattle.build_level.specs.Inner.{WordsOk, PatternLaid, WordsLaid, FacesOk, FacesLaid, ValuesOk, ValuesLaid, graph_in};

use aggregation::Graph;
use coarsening::{Setup, Workspace};
use faces::{diagonals, mirrors};
use layout::Place;
use refusal::Refusal;

// Where the build has come to: the level to be laid, of so many rows and entries, its matrix in the temporaries; where its words and
// floats start; the charge so far, its own among them; its number; the pairings made so far; how many levels may follow it.
#[derive(Clone, Copy)]
pub struct Frontier {
    pub rows: usize,
    pub entries: usize,
    pub a: usize,
    pub b: usize,
    pub words: usize,
    pub floats: usize,
    pub level: u64,
    pub stage: u64,
    pub more: u64,
}

// The header of a level: its rows; whether it is the last, and with how many coupled rows, is said later.
fn lay_header(w: &mut [u32], a: usize, rows: usize)
    requires a_in_bounds { a + 3 ≤ length w.old }
    requires rows_bound { rows ≤ 65536 }
    ensures { Wrote a 3 (rows ∷ 0 ∷ 0 ∷ []) w.old w.new }
{
    w[a] = rows as u32;
    w[a + 1] = 0;
    w[a + 2] = 0;
}

// The header, and the pattern out of the temporaries.
fn lay_pattern(w: &mut [u32], t: Workspace, s: Frontier)
    requires { WordsOk w.old t s }
    ensures { PatternLaid w.old w.new t s }
{
    let offsets = s.a + 3;
    lay_header(w, s.a, s.rows);
    store::copy(w, s.rows + 1, t.offsets, offsets);
    store::copy(w, s.entries, t.columns, offsets + s.rows + 1);
}

// These and the face offsets; the number of faces, on which the rest of the place depends.
fn lay_words(w: &mut [u32], t: Workspace, s: Frontier) -> usize
    requires { WordsOk w.old t s }
    ensures { WordsLaid w.old w.new t s result }
{
    lay_pattern(w, t, s);
    let p = layout::place_of(s.a, s.b, s.rows, s.entries, 0);
    let bare = layout::faces_in(p);
    faces::face_offsets(w, bare)
}

// The faces, their mirrors, which are all there, and the diagonal entries: question 11.
fn lay_faces(w: &mut [u32], p: Place, level: u64) -> Result<(), Refusal>
    requires { FacesOk w.old p }
    ensures { FacesLaid w.old w.new p level result }
{
    let s = layout::faces_in(p);
    faces::fill_faces(w, s);
    mirrors::mirrors(w, s);
    diagonals::diagonals(w, s, level)
}

// The values out of the temporaries, and the coefficients: questions 12 and 13.
fn lay_values(w: &[u32], f: &mut [f64], p: Place, from: usize, level: u64) -> Result<(), Refusal>
    requires { ValuesOk w.now (length f.old) p from }
    ensures { ValuesLaid w.now f.old f.new p from level result }
{
    let kernel = layout::kernel_in(p);
    let image = layout::entries_in(p);
    store::copy(f, p.entries, from, p.values);
    coefficients::update(w, f, kernel, image, level)
}

// The level at the frontier, out of the temporaries: questions 11, 12 and 13. Where one refuses, some of it may have been written.
pub fn lay(w: &mut [u32], f: &mut [f64], x: Setup, s: Frontier) -> Result<usize, Refusal>
    requires { FrontierOk w.old (length f.old) x.options x.workspace s }
    ensures { Laid w.old w.new f.old f.new x.given x.workspace s result }
{
    let t = x.workspace;
    let faces = lay_words(w, t, s);
    let p = layout::place_of(s.a, s.b, s.rows, s.entries, faces);
    lay_faces(w, p, s.level)?;
    lay_values(w, f, p, t.values, s.level)?;
    Ok(faces)
}

// Whether a level is the last by its pattern alone: few rows are coupled, or none, or no level may follow.
fn ends_at(coupled: usize, coarsest: u64, faces: usize, more: u64) -> bool
    ensures { result ≡ (leb coupled coarsest || eqb faces 0 || eqb more 0) }
{
    (coupled as u64 <= coarsest) | (faces == 0) | (more == 0)
}

// The matrix of the level as `pairs` takes it: its weights, or its values where no weights are given, and the cap.
fn graph_in(x: Setup, p: Place) -> Graph
    ensures { result ≡ graph_in x.given x.workspace p x.options.max_aggregate_cells }
{
    Graph {
        rows: p.rows,
        entries: p.entries,
        offsets: p.offsets,
        columns: p.columns,
        map: p.links,
        weights: if x.given {
            x.workspace.weights
        } else {
            p.values
        },
        absolute: !x.given,
        cap: x.options.max_aggregate_cells,
    }
}

// The aggregates of the level that stands at p, in alternating direction, unless it is the last: then as many as rows.
pub fn choose(w: &mut [u32], f: &[f64], x: Setup, s: Frontier, p: Place) -> usize
    requires { ChooseOk w.old (length f.now) x.options x.workspace s p }
    ensures { Chosen w.old w.new f.now x.options x.given x.workspace s p result }
{
    let level = layout::faces_in(p);
    let coupled = faces::coupled_count(w, level);
    if ends_at(coupled, x.options.coarsest_cells, p.faces, s.more) {
        return p.rows;
    }
    let g = graph_in(x, p);
    aggregation::pairs(w, f, g, s.stage % 2 == 0)
}
