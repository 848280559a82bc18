// The rows of the load, laid one after the other: the entries behind the diagonal are read from the rows that they mirror.
//
// The slices go from function to function as the caller of `load` lends them. A struct of those that are written would hold two borrows,
// and each function on it would have to ensure that they are still the same ones (`ghost_name`), beside `Pushed`, which says what is in them.
ghost use Rattle.std.specs.Prelude.{◌≡◌, ◌+◌, ◌-◌, ◌*◌, ◌<◌, ◌≤◌, true, ◌∷◌, ◌++◌, length, if◌then◌else◌};
ghost use Rattle.load.specs.Steps.{MirrorOk, mirror_at, MirrorsOk, MirrorsAre, own_sum, one, optional, RoomFor, Pushed, columns_behind, columns_ahead, values_behind, values_ahead, DrawsSmall, count_of, CellOk, CellDone, CellsOk, CellsDone, Few, grid_of};
ghost use Rattle.load.specs.Load.{row_start, columns_in};

use crate::cells::{Extents, Place, Row};
use crate::drawing::{Draws, draw_all};
use store::wide;

// The entries of a row behind the diagonal, along each axis; zero where there is no face.
#[derive(Clone, Copy)]
pub struct Mirrors {
    pub left: f64,
    pub up: f64,
    pub shallower: f64,
}

// 1 where a face is there, else 0.
fn count(there: bool) -> usize
    ensures { result ≡ one there }
{
    usize::from(there)
}

// The number of a cell that is so far behind cell i; 0 where there is none.
fn behind(there: bool, i: usize, stride: usize) -> usize
    requires { there ≡ true → stride ≤ i }
    ensures { result ≡ (if there then i - stride else 0) }
{
    if there { i - stride } else { 0 }
}

// The mirror of the entry of row i that stands so far behind the diagonal: it is so many entries from the end of its row.
fn mirror(there: bool, i: usize, stride: usize, back: usize, offsets: &[u32], values: &[f64]) -> f64
    requires { MirrorOk there i stride back offsets.now (length values.now) }
    ensures { result ≡ mirror_at there i stride back offsets.now values.now }
{
    if there {
        let end = wide(offsets[i - stride + 1]);
        values[end - back]
    } else {
        0.0
    }
}

// The mirrors of the entries of a row behind its diagonal.
fn mirrors_of(row: Row, offsets: &[u32], values: &[f64]) -> Mirrors
    requires { MirrorsOk row.extents row.number row.faces offsets.now (length values.now) }
    ensures { MirrorsAre row.extents row.number row.faces offsets.now values.now result }
{
    let Row {
        extents: e,
        number: i,
        faces: f,
    } = row;
    let down = count(f.down);
    let deeper = count(f.deeper);
    let left = mirror(f.left, i, 1, 1 + down + deeper, offsets, values);
    let up = mirror(f.up, i, e.width, 1 + deeper, offsets, values);
    let shallower = mirror(f.shallower, i, e.width * e.height, 1, offsets, values);
    Mirrors {
        left,
        up,
        shallower,
    }
}

// The diagonal of a row: the sum of the cell's faces, plus 1.
fn own(m: Mirrors, d: Draws) -> f64
    requires { DrawsSmall d }
    ensures { result ≡ own_sum m d }
{
    let drawn = 1 + d.right + d.down + d.deeper;
    drawn as f64 - m.left - m.up - m.shallower
}

// An entry at p, where there is one; the place after it.
fn push(
    there: bool,
    p: usize,
    column: usize,
    value: f64,
    columns: &mut [u32],
    values: &mut [f64],
) -> usize
    requires room_for { RoomFor (one there) p (length columns.old) (length values.old) }
    requires column_bound { column ≤ 131072 }
    ensures { Pushed p (optional there column) (optional there value) columns.old columns.new values.old values.new result }
{
    if there {
        columns[p] = column as u32;
        values[p] = value;
        p + 1
    } else {
        p
    }
}

// How many entries the row of a cell has.
fn width_of(place: Place) -> usize
    requires z_lt_depth { place.cell.z < place.extents.depth }
    ensures value { result ≡ length (columns_in (grid_of place.extents) place.cell.number) }
    ensures upper_bound { result ≤ 7 }
{
    let f = place.faces();
    let behind = count(f.shallower) + count(f.up) + count(f.left);
    behind + 1 + count(f.right) + count(f.down) + count(f.deeper)
}

// The entries behind the diagonal, from p on.
fn push_behind(row: Row, m: Mirrors, p: usize, columns: &mut [u32], values: &mut [f64]) -> usize
    requires { RoomFor (one row.faces.shallower + one row.faces.up + one row.faces.left) p (length columns.old) (length values.old) }
    ensures { Pushed p (columns_behind row.extents row.number row.faces) (values_behind row.faces m) columns.old columns.new values.old values.new result }
{
    let Row {
        extents: e,
        number: i,
        faces: f,
    } = row;
    let shallower = behind(f.shallower, i, e.width * e.height);
    let up = behind(f.up, i, e.width);
    let left = behind(f.left, i, 1);
    let q = push(f.shallower, p, shallower, m.shallower, columns, values);
    let r = push(f.up, q, up, m.up, columns, values);
    push(f.left, r, left, m.left, columns, values)
}

// The entries ahead of the diagonal, from p on.
fn push_ahead(row: Row, d: Draws, p: usize, columns: &mut [u32], values: &mut [f64]) -> usize
    requires { RoomFor (one row.faces.right + one row.faces.down + one row.faces.deeper) p (length columns.old) (length values.old) }
    ensures { Pushed p (columns_ahead row.extents row.number row.faces) (values_ahead row.faces d) columns.old columns.new values.old values.new result }
{
    let Row {
        extents: e,
        number: i,
        faces: f,
    } = row;
    let q = push(f.right, p, i + 1, -(d.right as f64), columns, values);
    let r = push(f.down, q, i + e.width, -(d.down as f64), columns, values);
    push(
        f.deeper,
        r,
        i + e.width * e.height,
        -(d.deeper as f64),
        columns,
        values,
    )
}

// A row, from p on.
fn push_row(
    row: Row,
    m: Mirrors,
    d: Draws,
    p: usize,
    columns: &mut [u32],
    values: &mut [f64],
) -> usize
    requires draws_small { DrawsSmall d }
    requires room_for { RoomFor (count_of row.faces) p (length columns.old) (length values.old) }
    ensures { Pushed p (columns_behind row.extents row.number row.faces ++ (row.number ∷ columns_ahead row.extents row.number row.faces))
        (values_behind row.faces m ++ (own_sum m d ∷ values_ahead row.faces d)) columns.old columns.new values.old values.new result }
{
    let diagonal = own(m, d);
    let q = push_behind(row, m, p, columns, values);
    let r = push(true, q, row.number, diagonal, columns, values);
    push_ahead(row, d, r, columns, values)
}

// How far the rows are laid: where they end, and the state after their draws.
#[derive(Clone, Copy)]
pub struct Reached {
    pub end: usize,
    pub state: u64,
}

// The row of a cell.
fn lay_cell(
    place: Place,
    seed: u64,
    before: Reached,
    offsets: &[u32],
    columns: &mut [u32],
    values: &mut [f64],
) -> Reached
    requires { CellOk seed place.extents place.cell before offsets.now (length columns.old) values.old }
    ensures { CellDone seed place.extents place.cell.number before columns.old columns.new values.old values.new result }
{
    let faces = place.faces();
    let d = draw_all(faces, seed, before.state);
    let row = Row {
        extents: place.extents,
        number: place.cell.number,
        faces,
    };
    let m = mirrors_of(row, offsets, values);
    let end = push_row(row, m, d, before.end, columns, values);
    Reached {
        end,
        state: d.state,
    }
}

// The rows of all cells, and where each starts.
pub fn lay_cells(
    e: Extents,
    cells: usize,
    seed: u64,
    offsets: &mut [u32],
    columns: &mut [u32],
    values: &mut [f64],
) -> Reached
    requires { CellsOk e cells (length offsets.old) (length columns.old) (length values.old) }
    ensures { CellsDone seed e cells offsets.old offsets.new columns.old columns.new values.old values.new result }
{
    let mut reached = Reached {
        end: 0,
        state: seed,
    };
    let mut place = Place::first(e);
    for i in 0..cells {
        offsets[i] = reached.end as u32;
        reached = lay_cell(place, seed, reached, offsets, columns, values);
        place = place.following();
    }
    reached
}

// How many entries the load on a box has.
pub fn entries_of(e: Extents, cells: usize) -> usize
    requires few { Few e }
    requires cells_value { cells ≡ e.width * e.height * e.depth }
    ensures { result ≡ row_start (grid_of e) cells }
{
    let mut entries = 0;
    let mut place = Place::first(e);
    for i in 0..cells {
        entries += width_of(place);
        place = place.following();
    }
    entries
}
