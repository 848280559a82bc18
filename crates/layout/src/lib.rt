// Where a level stands in the two stores. All arithmetic of positions is here.
#![tactic(auto)]

ghost use Rattle.std.specs.Prelude.{◌≡◌, ◌+◌, ◌*◌, ◌≤◌, length};
ghost use Rattle.layout.specs.Layout.{place_of, locate, words_end};
ghost use Rattle.layout.specs.PlaceContract.{PlaceOk};
ghost use Rattle.layout.specs.Parts.{kernel_in, entries_in, faces_in};

use coefficients::Entries;
use faces::Faces;
use matrix::SymmetricMatrix;

pub mod smoother;
pub mod sums;
pub mod terminal;

pub use smoother::smoother_data;
pub use sums::row_sums;
pub use terminal::{factor, terminal_in};

// A level's sizes, its regions in the words, and its regions in the floats.
#[derive(Clone, Copy)]
pub struct Place {
    pub rows: usize,
    pub entries: usize,
    pub faces: usize,
    pub offsets: usize,
    pub columns: usize,
    pub starts: usize,
    pub diagonals: usize,
    pub neighbors: usize,
    pub uppers: usize,
    pub lowers: usize,
    pub links: usize,
    pub positions: usize,
    pub values: usize,
    pub coefficients: usize,
    pub diagonal: usize,
    pub inverse: usize,
    pub dic: usize,
    pub factor: usize,
}

// The place of a level of so many rows, entries and faces whose words start at a and whose floats start at b.
pub fn place_of(a: usize, b: usize, rows: usize, entries: usize, faces: usize) -> Place
    requires faces_bound { a + 4 * rows + entries + 3 * faces + 5 ≤ 18446744073709551615 }
    requires faces_bound_2 { b + 3 * rows + entries + faces ≤ 18446744073709551615 }
    ensures { result ≡ place_of a b rows entries faces }
{
    let offsets = a + 3;
    let columns = offsets + rows + 1;
    let starts = columns + entries;
    let diagonals = starts + rows + 1;
    let neighbors = diagonals + rows;
    let uppers = neighbors + faces;
    let lowers = uppers + faces;
    let links = lowers + faces;
    let coefficients = b + entries;
    let diagonal = coefficients + faces;
    let inverse = diagonal + rows;
    let dic = inverse + rows;
    Place {
        rows,
        entries,
        faces,
        offsets,
        columns,
        starts,
        diagonals,
        neighbors,
        uppers,
        lowers,
        links,
        positions: links + rows,
        values: b,
        coefficients,
        diagonal,
        inverse,
        dic,
        factor: dic + rows,
    }
}

// The place of the level whose words start at a and whose floats start at b: what its words tell of its sizes is read here alone.
pub fn place_at(w: &[u32], a: usize, b: usize) -> Place
    requires { PlaceOk w.now a b }
    ensures { result ≡ locate w.now a b }
{
    let rows = store::wide(w[a]);
    let entries = store::wide(w[a + 3 + rows]);
    let faces = store::wide(w[a + 3 + rows + 1 + entries + rows]);
    place_of(a, b, rows, entries, faces)
}

// The kernel of the level.
pub fn kernel_in(p: Place) -> SymmetricMatrix
    ensures { result ≡ kernel_in p }
{
    SymmetricMatrix {
        rows: p.rows,
        diagonal: p.diagonal,
        inverse: p.inverse,
        offsets: p.starts,
        neighbors: p.neighbors,
        coefficients: p.coefficients,
    }
}

// The entries that it is updated from.
pub fn entries_in(p: Place) -> Entries
    ensures { result ≡ entries_in p }
{
    Entries {
        entries: p.entries,
        diagonals: p.diagonals,
        faces: p.uppers,
        values: p.values,
    }
}

// The pattern of the level and its faces.
pub fn faces_in(p: Place) -> Faces
    ensures { result ≡ faces_in p }
{
    Faces {
        rows: p.rows,
        entries: p.entries,
        faces: p.faces,
        offsets: p.offsets,
        columns: p.columns,
        starts: p.starts,
        diagonals: p.diagonals,
        neighbors: p.neighbors,
        uppers: p.uppers,
        lowers: p.lowers,
    }
}

// Where the words of the level that starts at a end.
pub fn words_end(w: &[u32], a: usize) -> usize
    requires { words_end w.now a ≤ length w.now }
    ensures { result ≡ words_end w.now a }
{
    let p = place_at(w, a, 0);
    if w[a + 1] == 1 {
        return p.links + store::wide(w[a + 2]);
    }
    p.positions + p.entries
}
