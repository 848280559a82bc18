// mod.rs: the calls that build a hierarchy, `new` and `new_with_face_weights`: up to their statistics, and whole. These two are two, and take
// each array and store by itself, as README names them and C calls them. The arrays have one lifetime, since a `Source` holds them all.
ghost use Rattle.std.specs.Prelude.{◌≡◌, true, false, []};
ghost use Rattle.build.specs.Asking.{input_of, input_in};
ghost use Rattle.multigrid.specs.Contract.{cells_at, table_of, CellsOk, BuildRan};
ghost use Rattle.multigrid.specs.New.{NewDone};

use build::Source;
use options::{Handle, MultigridOptions};
use refusal::Refusal;
use solver::{BuildRun, MultigridLevelStatistics};

// The rows of so many levels, as their words tell them, and zeros behind them.
fn cells(words: &[u32], levels: usize) -> [u64; 128]
    requires { CellsOk words.now levels }
    ensures { result ≡ table_of (cells_at levels words.now 0) }
{
    let mut table = [0u64; 128];
    let mut a = 0;
    for k in 0..levels {
        table[k] = store::wide(words[a]) as u64;
        a = layout::words_end(words, a);
    }
    table
}

// A build with so many records lent: the hierarchy, and the rows of its levels, none where the build refuses.
fn run(x: Source, records: usize, words: &mut [u32], floats: &mut [f64]) -> BuildRun
    ensures { BuildRan words.old words.new floats.old floats.new records (input_in x.entry) result }
{
    match build::build(x, records, words, floats) {
        Ok(h) => {
            let table = cells(words, h.levels as usize);
            BuildRun {
                answer: Ok(h),
                cells: table,
            }
        }
        Err(q) => {
            let table = [0u64; 128];
            BuildRun {
                answer: Err(q),
                cells: table,
            }
        }
    }
}

// Both calls: a build, and the statistics of its levels, which are zeros where it refuses.
fn call(
    x: Source,
    words: &mut [u32],
    floats: &mut [f64],
    statistics: &mut [MultigridLevelStatistics],
) -> Result<Handle, Refusal>
    ensures { NewDone words.old words.new floats.old floats.new statistics.old statistics.new (input_in x.entry) result }
{
    let records = statistics.len();
    let built = run(x, records, words, floats);
    statistics::publish(built, statistics)
}

// The hierarchy of a matrix in compressed rows, paired by its values, in stores that the caller lends, whatever these held; and the
// statistics of its levels, which are zeros where the build refuses.
pub fn new<'a>(
    rows: usize,
    offsets: &'a [u32],
    columns: &'a [u32],
    values: &'a [f64],
    options: MultigridOptions,
    words: &mut [u32],
    floats: &mut [f64],
    statistics: &mut [MultigridLevelStatistics],
) -> Result<Handle, Refusal>
    ensures { NewDone words.old words.new floats.old floats.new statistics.old statistics.new (input_of rows offsets.now columns.now values.now false [] options) result }
{
    let x = Source {
        rows,
        offsets,
        columns,
        values,
        weights: None,
        options,
    };
    call(x, words, floats, statistics)
}

// The same, paired by fixed geometric face strengths instead of flow-dependent matrix coefficients. Weights follow the entries;
// diagonal weights are ignored and internal weights sum on coarse levels.
pub fn new_with_face_weights<'a>(
    rows: usize,
    offsets: &'a [u32],
    columns: &'a [u32],
    values: &'a [f64],
    face_weights: &'a [f64],
    options: MultigridOptions,
    words: &mut [u32],
    floats: &mut [f64],
    statistics: &mut [MultigridLevelStatistics],
) -> Result<Handle, Refusal>
    ensures { NewDone words.old words.new floats.old floats.new statistics.old statistics.new (input_of rows offsets.now columns.now values.now true face_weights.now options) result }
{
    let x = Source {
        rows,
        offsets,
        columns,
        values,
        weights: Some(face_weights),
        options,
    };
    call(x, words, floats, statistics)
}
