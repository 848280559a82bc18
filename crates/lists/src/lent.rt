// The calls with a table of records by value, so many of which are lent: what a program with plain numbers cannot lend itself. Where a
// call changes the records, they go into the numbers that a list has for them.
ghost use Rattle.std.specs.Prelude.{◌≡◌, ◌≤◌};
ghost use Rattle.multigrid.specs.New.{NewDone};
ghost use Rattle.multigrid.specs.UpdatingCall.{UpdateCall};
ghost use Rattle.lists.specs.Numbers.{record_at, records_in, records_lent, Put, with_record, with_records};
ghost use Rattle.lists.specs.Calls.{source_in, BuildLent, SolveLent};

use crate::source::{Matrix, Source};
use options::Handle;
use refusal::Refusal;
use solver::{LinearSolveReport, LinearSolverOptions, MultigridLevelStatistics};

// The record whose five numbers start there; an empty one where there are not so many.
fn record(numbers: &[u64], at: usize) -> MultigridLevelStatistics
    requires { at ≤ 635 }
    ensures { result ≡ record_at numbers.now at }
{
    if at + 5 > numbers.len() {
        return MultigridLevelStatistics::unvisited(0);
    }
    MultigridLevelStatistics {
        cells: numbers[at],
        visits: numbers[at + 1],
        pre_sweeps: numbers[at + 2],
        post_sweeps: numbers[at + 3],
        coarse_iterations: numbers[at + 4],
    }
}

// The records that stand in numbers, five to a record.
pub fn records_of(numbers: &[u64]) -> [MultigridLevelStatistics; 128]
    ensures { result ≡ records_in numbers.now }
{
    let mut records = [MultigridLevelStatistics::unvisited(0); 128];
    for k in 0..128 {
        records[k] = record(numbers, 5 * k);
    }
    records
}

// A table of records, and how many of them a call is lent, the first ones.
#[derive(Clone, Copy)]
pub struct Lent {
    pub table: [MultigridLevelStatistics; 128],
    pub count: usize,
    pub ghost within: { count ≤ 128 },
}

impl Lent {
    // The records that stand in numbers: the whole ones are lent, 128 at most.
    pub fn of(numbers: &[u64]) -> Lent
        ensures table { result.table ≡ records_in numbers.now }
        ensures count { result.count ≡ records_lent numbers.now }
    {
        Lent {
            table: records_of(numbers),
            count: (numbers.len() / 5).min(128),
        }
    }
}

// A number to its place; none outside of them.
fn put(numbers: &mut [u64], at: usize, number: u64)
    ensures { Put at number numbers.old numbers.new }
{
    if at < numbers.len() {
        numbers[at] = number;
    }
}

// A record to its five numbers, which start there.
fn put_record(numbers: &mut [u64], at: usize, r: MultigridLevelStatistics)
    requires { at ≤ 635 }
    ensures { numbers.new ≡ with_record at r numbers.old }
{
    put(numbers, at, r.cells);
    put(numbers, at + 1, r.visits);
    put(numbers, at + 2, r.pre_sweeps);
    put(numbers, at + 3, r.post_sweeps);
    put(numbers, at + 4, r.coarse_iterations);
}

// The records to their numbers, as far as there are so many.
fn write_back(records: [MultigridLevelStatistics; 128], numbers: &mut [u64])
    ensures { numbers.new ≡ with_records records numbers.old }
{
    for k in 0..128 {
        let r = records[k];
        put_record(numbers, 5 * k, r);
    }
}

// The build that pairs by the weights where there are any, else the one that pairs by the values.
fn build(
    source: Source,
    words: &mut [u32],
    floats: &mut [f64],
    records: &mut [MultigridLevelStatistics],
) -> Result<Handle, Refusal>
    ensures { NewDone words.old words.new floats.old floats.new records.old records.new (source_in source.entry) result }
{
    let rows = source.rows;
    let Matrix {
        offsets,
        columns,
        values,
    } = source.matrix;
    let o = source.options;
    match source.weights {
        Some(weights) => multigrid::new_with_face_weights(
            rows, offsets, columns, values, weights, o, words, floats, records,
        ),
        None => multigrid::new(rows, offsets, columns, values, o, words, floats, records),
    }
}

pub fn new(
    source: Source,
    words: &mut [u32],
    floats: &mut [f64],
    lent: Lent,
    numbers: &mut [u64],
) -> Result<Handle, Refusal>
    ensures { BuildLent words.old words.new floats.old floats.new lent.table lent.count numbers.old numbers.new (source_in source.entry) result }
{
    let mut records = lent.table;
    let answer = build(source, words, floats, &mut records[..lent.count]);
    write_back(records, numbers);
    answer
}

pub fn solve(
    handle: Handle,
    words: &[u32],
    floats: &mut [f64],
    lent: Lent,
    numbers: &mut [u64],
    rhs: &[f64],
    x: &mut [f64],
    options: LinearSolverOptions,
) -> Result<LinearSolveReport, Refusal>
    ensures { SolveLent handle words.now floats.old floats.new lent.table lent.count numbers.old numbers.new rhs.now x.old x.new options result }
{
    let mut records = lent.table;
    let answer = multigrid::solve(
        handle,
        words,
        floats,
        &mut records[..lent.count],
        rhs,
        x,
        options,
    );
    write_back(records, numbers);
    answer
}

pub fn update_values(
    handle: Handle,
    matrix: Matrix,
    words: &[u32],
    floats: &mut [f64],
    lent: Lent,
) -> Result<(), Refusal>
    ensures { UpdateCall handle words.now floats.old floats.new lent.count matrix.entry.offsets.now matrix.entry.columns.now matrix.entry.values.now result }
{
    let records = lent.table;
    multigrid::update_values(
        handle,
        matrix.offsets,
        matrix.columns,
        matrix.values,
        words,
        floats,
        &records[..lent.count],
    )
}

pub fn statistics(
    handle: Handle,
    words: &[u32],
    floats: &[f64],
    lent: Lent,
) -> Result<u64, Refusal> {
    let records = lent.table;
    multigrid::statistics(handle, words, floats, &records[..lent.count])
}
