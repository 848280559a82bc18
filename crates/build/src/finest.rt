// The finest level of a build: its matrix is loaded, question 10, the frontier at it, and its row sums.
ghost use Rattle.std.specs.Prelude.{◌≡◌, length};
ghost use Rattle.build.specs.AskingContract.{ChargeOk};
ghost use Rattle.layout.specs.Layout.{locate};
ghost use Rattle.layout.specs.Parts.{kernel_in};
ghost use Rattle.build.specs.Finest.{faces_in, SymmetricOk, SymmetricDone, finest_of, FirstOk, SumsOk, Summed};

use crate::questions::space;
use build_level::Frontier;
use coarsening::Workspace;
use faces::{Faces, mirrors};
use matrix::SymmetricMatrix;
use options::MultigridOptions;

pub mod loading;

// The matrix in the temporaries, with so many faces.
fn faces_of(t: Workspace, faces: usize) -> Faces
    ensures { result ≡ faces_in t faces }
{
    Faces {
        rows: t.rows,
        entries: t.entries,
        faces,
        offsets: t.offsets,
        columns: t.columns,
        starts: t.starts,
        diagonals: t.diagonals,
        neighbors: t.neighbors,
        uppers: t.uppers,
        lowers: t.lowers,
    }
}

// Question 10: whether each entry has its mirror, both finite and equal.
pub fn symmetric(w: &mut [u32], values: &[f64], t: Workspace) -> bool
    requires { SymmetricOk w.old values.now t }
    ensures { SymmetricDone w.old w.new values.now t result }
{
    let faces = faces::face_offsets(w, faces_of(t, 0));
    let s = faces_of(t, faces);
    faces::fill_faces(w, s);
    mirrors::mirrors(w, s) && coefficients::mirrors_agree(w, values, faces, t.uppers, t.lowers)
}

// The frontier at the finest level.
pub fn frontier(o: MultigridOptions, t: Workspace) -> Frontier
    requires { ChargeOk t.rows t.entries o }
    ensures { result ≡ finest_of o t }
{
    let vectors = space::vectors(t.rows, o.krylov_dimension as usize);
    let factor = space::square(o.coarsest_cells as usize);
    Frontier {
        rows: t.rows,
        entries: t.entries,
        a: 0,
        b: 0,
        words: 16 * t.rows + 12 * t.entries + 64 + (5 * t.rows + 4 * t.entries + 8),
        floats: vectors + 8 * t.entries + factor + (20 * t.rows + 4 * t.entries),
        level: 0,
        stage: 0,
        more: o.max_levels - 1,
    }
}

// The kernel of the first level in the stores.
fn first_kernel(w: &[u32], rows: usize, entries: usize) -> SymmetricMatrix
    requires { FirstOk w.now rows entries }
    ensures { result ≡ kernel_in (locate w.now 0 0) }
{
    let faces = store::wide(w[2 * rows + entries + 4]);
    layout::kernel_in(layout::place_of(0, 0, rows, entries, faces))
}

// The row sums of the finest level at `end`, where the norm needs them; else zeros.
pub fn sums(w: &[u32], f: &mut [f64], o: MultigridOptions, end: usize, rows: usize, entries: usize)
    requires { SumsOk w.now (length f.old) end rows entries }
    ensures { Summed w.now f.old f.new o end rows }
{
    let norm = o.residual_norm;
    let kernel = first_kernel(w, rows, entries);
    layout::row_sums(w, f, norm, kernel, end);
}
