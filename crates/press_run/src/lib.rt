// What the records of a problem file do, once they are read: the build of its matrix, an update, a solve, each one call of the library on
// the arrays that were read; and what each record and each answer makes of a run. Arrays have the largest sizes of a problem file, and a call
// sees as much of them as the matrix has.
#![tactic(auto)]

ghost use Rattle.std.specs.Prelude.{◌≡◌};
ghost use Rattle.press_run.specs.Acting.{run_rows, run_offsets, run_entries, RunBuild, RunUpdate, RunSolve};

pub mod run;

use lists::{Matrix, Source, calls, first};
use options::{Handle, MultigridOptions};
use record_order::Came;
use refusal::Refusal;
pub use run::Run;
use solver::{LinearSolveReport, LinearSolverOptions};

// The rows of the matrix: 64 at most, as in a problem file.
fn rows(came: Came) -> usize
    ensures { result ≡ run_rows came }
{
    (came.rows as usize).min(64)
}

// As much of each array as the matrix has.
fn part(came: Came, m: Matrix) -> Matrix
    ensures offsets { result.offsets.now ≡ run_offsets came m.entry.offsets.now }
    ensures columns { result.columns.now ≡ run_entries came m.entry.columns.now }
    ensures values { result.values.now ≡ run_entries came m.entry.values.now }
{
    let entries = came.entries as usize;
    Matrix {
        offsets: first(m.offsets, rows(came) + 1),
        columns: first(m.columns, entries),
        values: first(m.values, entries),
    }
}

// The build: with the weights where these came.
pub fn build(
    came: Came,
    options: MultigridOptions,
    matrix: Matrix,
    weights: &[f64],
    words: &mut [u32],
    floats: &mut [f64],
    statistics: &mut [u64],
) -> Result<Handle, Refusal>
    ensures { RunBuild came options matrix.entry.offsets.now matrix.entry.columns.now matrix.entry.values.now weights.now words.old words.new floats.old floats.new statistics.old statistics.new result }
{
    let entries = came.entries as usize;
    let source = Source {
        rows: rows(came),
        matrix: part(came, matrix),
        weights: came.weights.then_some(first(weights, entries)),
        options,
    };
    calls::new(source, words, floats, statistics)
}

// An update, on the pattern of the build.
pub fn update(
    came: Came,
    handle: Handle,
    matrix: Matrix,
    words: &[u32],
    floats: &mut [f64],
    statistics: &[u64],
) -> Result<(), Refusal>
    ensures { RunUpdate came handle matrix.entry.offsets.now matrix.entry.columns.now matrix.entry.values.now words.now floats.old floats.new statistics.now result }
{
    let renewed = part(came, matrix);
    calls::update_values(handle, renewed, words, floats, statistics)
}

// A solve: x is the start, and the solution where it is accepted.
pub fn solve(
    came: Came,
    handle: Handle,
    limits: LinearSolverOptions,
    rhs: &[f64],
    x: &mut [f64],
    words: &[u32],
    floats: &mut [f64],
    statistics: &mut [u64],
) -> Result<LinearSolveReport, Refusal>
    ensures { RunSolve came handle limits rhs.now x.old x.new words.now floats.old floats.new statistics.old statistics.new result }
{
    let rows = came.rows as usize;
    let b = rows.min(x.len());
    calls::solve(
        handle,
        words,
        floats,
        statistics,
        first(rhs, rows),
        &mut x[..b],
        limits,
    )
}
