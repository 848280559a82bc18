// The call: questions first, then the load is written. The three slices come apart, as C lends them to `multigrid_load`, and `Loading` says
// of each what is in it before and after.
ghost use Rattle.std.specs.Prelude.{◌≡◌, ◌*◌, [], ◌∷◌, length};
ghost use Rattle.load.specs.Load.{row_start, load_of};
ghost use Rattle.load.specs.Call.{room_of, Loading};
ghost use Rattle.load.specs.Steps.{capped, list_of, AskedOf, Writable, grid_of, Written};

use crate::cells::Extents;
use crate::laying::{entries_of, lay_cells};
use refusal::{BAD_LOAD, Refusal};

// The size of a load.
#[derive(Clone, Copy)]
pub struct Size {
    pub rows: u64,
    pub entries: u64,
}

// A product of at most 65,536; 0 where it is larger.
fn product(a: usize, b: usize) -> usize
    ensures { result ≡ capped (a * b) }
{
    if a == 0 {
        return 0;
    }
    if 65536 / a < b { 0 } else { a * b }
}

// The number of cells; 0 where an extent is zero or there are more than 65,536 cells. Neither box has a load, so that `ask` need not tell
// them apart, and no `Option` stands beside the product that is zero.
fn cells_of(e: Extents) -> usize
    ensures { result ≡ capped (e.width * e.height * e.depth) }
{
    let layer = product(e.width, e.height);
    product(layer, e.depth)
}

// Question 35; the cells of a load that passes it.
fn ask(
    seed: u64,
    e: Extents,
    offsets: usize,
    columns: usize,
    values: usize,
) -> Result<usize, Refusal>
    ensures { AskedOf seed e (record { offsets = offsets; columns = columns; values = values }) result }
{
    let cells = cells_of(e);
    if seed == 0 {
        return Err(BAD_LOAD);
    }
    if cells == 0 {
        return Err(BAD_LOAD);
    }
    let entries = entries_of(e, cells);
    let room = (cells + 1 <= offsets) & (entries <= columns) & (entries <= values);
    if room { Ok(cells) } else { Err(BAD_LOAD) }
}

// A load that was asked about: the rows, and last where they end.
fn write(
    seed: u64,
    e: Extents,
    cells: usize,
    offsets: &mut [u32],
    columns: &mut [u32],
    values: &mut [f64],
) -> usize
    requires { Writable e cells (row_start (grid_of e) cells) (room_of offsets.old columns.old values.old) }
    ensures { Written seed e cells offsets.old offsets.new columns.old columns.new values.old values.new result }
{
    let reached = lay_cells(e, cells, seed, offsets, columns, values);
    let end = reached.end;
    offsets[cells] = end as u32;
    end
}

// The load of a seed on a box, written over the starts of the three slices, or refusal 35 with nothing written.
fn load_box(
    seed: u64,
    e: Extents,
    offsets: &mut [u32],
    columns: &mut [u32],
    values: &mut [f64],
) -> Result<Size, Refusal>
    ensures { Loading (load_of seed (list_of e) (room_of offsets.old columns.old values.old)) offsets.old offsets.new columns.old columns.new values.old values.new result }
{
    let cells = ask(seed, e, offsets.len(), columns.len(), values.len())?;
    let entries = write(seed, e, cells, offsets, columns, values);
    Ok(Size {
        rows: cells as u64,
        entries: entries as u64,
    })
}

// The load of a seed on a box of width, height and depth in cells.
pub fn load(
    seed: u64,
    width: u64,
    height: u64,
    depth: u64,
    offsets: &mut [u32],
    columns: &mut [u32],
    values: &mut [f64],
) -> Result<Size, Refusal>
    ensures { Loading (load_of seed (width ∷ height ∷ depth ∷ []) (room_of offsets.old columns.old values.old)) offsets.old offsets.new columns.old columns.new values.old values.new result }
{
    let e = Extents {
        width: width as usize,
        height: height as usize,
        depth: depth as usize,
    };
    load_box(seed, e, offsets, columns, values)
}
