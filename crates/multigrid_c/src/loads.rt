// A load for C: a box of cells from a seed, the same everywhere.
ghost use Rattle.std.specs.Prelude.{◌≡◌, ◌∷◌, []};
ghost use Rattle.load.specs.Load.{load_of};
ghost use Rattle.load.specs.Call.{room_of};
ghost use Rattle.multigrid_c.specs.Loads.{loaded_struct, LoadExported};

use export::AnswerForC;
use load::loading::{Size, load};
use refusal::Refusal;

// The answer of a load. Every field has eight bytes.
#[repr(C)]
#[derive(Clone, Copy)]
pub struct LoadedForC {
    pub answer: AnswerForC,
    pub rows: u64,
    pub entries: u64,
}

// The answer as a struct.
fn tell_loaded(loaded: Result<Size, Refusal>) -> LoadedForC
    ensures { result ≡ loaded_struct loaded }
{
    match loaded {
        Ok(size) => LoadedForC {
            answer: AnswerForC::DONE,
            rows: size.rows,
            entries: size.entries,
        },
        Err(refusal) => LoadedForC {
            answer: AnswerForC::from(refusal),
            rows: 0,
            entries: 0,
        },
    }
}

// `load`: the box of so many cells, written over the starts of the three slices, or refusal 35 with nothing written.
#[unsafe(no_mangle)]
pub extern "C" fn multigrid_load(
    seed: u64,
    width: u64,
    height: u64,
    depth: u64,
    offsets: &mut [u32],
    columns: &mut [u32],
    values: &mut [f64],
) -> LoadedForC
    ensures { LoadExported (load_of seed (width ∷ height ∷ depth ∷ []) (room_of offsets.old columns.old values.old)) offsets.old offsets.new columns.old columns.new values.old values.new result }
{
    let loaded = load(seed, width, height, depth, offsets, columns, values);
    tell_loaded(loaded)
}
