// Questions 1 to 9 of a build, in order, of the arrays and the stores' sizes.
ghost use Rattle.std.specs.Prelude.{is_some, length};
ghost use Rattle.build.specs.Asking.{weights_in, input_in};
ghost use Rattle.build.specs.AskingContract.{lending, WeightsAsked, ArraysAsked, ChargeOk, RoomAsked, Asked};

use crate::Source;
use options::MultigridOptions;
use refusal::Refusal;

pub mod space;

// Questions 4 to 7, once the matrix has passed.
fn weights_asked(x: Source) -> Result<(), Refusal>
    ensures { WeightsAsked (length x.entry.columns.now) (is_some x.entry.weights) (weights_in x.entry) x.entry.options result }
{
    if let Some(weights) = x.weights {
        csr::check_weights(weights, x.columns.len())?;
    }
    options::check_controls(x.options)
}

// Questions 1 to 7.
fn arrays_asked(x: Source) -> Result<(), Refusal>
    ensures { ArraysAsked (input_in x.entry) result }
{
    csr::check_matrix(x.rows, x.offsets, x.columns, x.values)?;
    weights_asked(x)
}

// Question 9, of a matrix of so many rows and entries: where there is no row there is no level, and none is charged.
fn room_asked(
    rows: usize,
    entries: usize,
    o: MultigridOptions,
    records: usize,
    words: usize,
    floats: usize,
) -> Result<(), Refusal>
    requires { ChargeOk rows entries o }
    ensures { RoomAsked rows entries o (lending words floats records) result }
{
    let fixed = 16 * rows + 12 * entries + 64;
    let vectors = space::vectors(rows, o.krylov_dimension as usize);
    let factor = space::square(o.coarsest_cells as usize);
    let numbers = vectors + 8 * entries + factor;
    let paid = (fixed <= words) & (numbers <= floats) & (o.max_levels as usize <= records);
    let finest = (rows == 0)
        | ((fixed + (5 * rows + 4 * entries + 8) <= words)
            & (numbers + (20 * rows + 4 * entries) <= floats));
    if paid & finest {
        return Ok(());
    }
    Err(refusal::STORE_TOO_SMALL)
}

// Questions 1 to 9.
pub fn asked(x: Source, records: usize, words: usize, floats: usize) -> Result<(), Refusal>
    ensures { Asked (lending words floats records) (input_in x.entry) result }
{
    arrays_asked(x)?;
    room_asked(x.rows, x.columns.len(), x.options, records, words, floats)
}
