// The calls over numbers, five to a record of statistics, as programs with plain numbers hold them: the first 128 records are lent.
// Numbers behind the last whole record are no record: a call that writes statistics leaves zeros there. Stores, statistics and vectors are
// lent one by one, as to the library's calls: each call writes others of them.
ghost use Rattle.multigrid.specs.UpdatingCall.{UpdateCall};
ghost use Rattle.lists.specs.Numbers.{records_lent};
ghost use Rattle.lists.specs.Calls.{source_in, BuildOver, SolveOver};

use crate::lent::{self, Lent};
use crate::source::{Matrix, Source};
use options::Handle;
use refusal::Refusal;
use solver::{LinearSolveReport, LinearSolverOptions};

pub fn new(
    source: Source,
    words: &mut [u32],
    floats: &mut [f64],
    statistics: &mut [u64],
) -> Result<Handle, Refusal>
    ensures { BuildOver words.old words.new floats.old floats.new statistics.old statistics.new (source_in source.entry) result }
{
    let records = Lent::of(statistics);
    lent::new(source, words, floats, records, statistics)
}

pub fn update_values(
    handle: Handle,
    matrix: Matrix,
    words: &[u32],
    floats: &mut [f64],
    statistics: &[u64],
) -> Result<(), Refusal>
    ensures { UpdateCall handle words.now floats.old floats.new (records_lent statistics.now) matrix.entry.offsets.now matrix.entry.columns.now matrix.entry.values.now result }
{
    lent::update_values(handle, matrix, words, floats, Lent::of(statistics))
}

pub fn solve(
    handle: Handle,
    words: &[u32],
    floats: &mut [f64],
    statistics: &mut [u64],
    rhs: &[f64],
    x: &mut [f64],
    options: LinearSolverOptions,
) -> Result<LinearSolveReport, Refusal>
    ensures { SolveOver handle words.now floats.old floats.new statistics.old statistics.new rhs.now x.old x.new options result }
{
    let records = Lent::of(statistics);
    lent::solve(handle, words, floats, records, statistics, rhs, x, options)
}

pub fn statistics(
    handle: Handle,
    words: &[u32],
    floats: &[f64],
    statistics: &[u64],
) -> Result<u64, Refusal> {
    lent::statistics(handle, words, floats, Lent::of(statistics))
}
