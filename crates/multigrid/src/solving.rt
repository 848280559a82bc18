// mod.rs: `solve`, of any handle and any stores: up to its statistics, and whole. Each vector and store is lent by itself, as README names
// the call and C makes it; `run` takes what `solve` is lent, but the records.
ghost use Rattle.multigrid.specs.Contract.{SolveRan};
ghost use Rattle.multigrid.specs.SolvingCall.{SolveCall};

use index_check::check;
use options::Handle;
use refusal::Refusal;
use solver::{LinearSolveReport, LinearSolverOptions, MultigridLevelStatistics, SolveRun};

// A solve with so many records lent. Refused, x and the hierarchy stay as they were, and it counted on no level.
fn run(
    handle: Handle,
    words: &[u32],
    floats: &mut [f64],
    records: usize,
    rhs: &[f64],
    x: &mut [f64],
    options: LinearSolverOptions,
) -> SolveRun
    ensures { SolveRan handle words.now floats.old floats.new records rhs.now x.old x.new options result }
{
    if check::check(handle, words, floats.len(), records) {
        solve::solve(handle, words, floats, rhs, x, options)
    } else {
        solve::refused(refusal::UNSOUND_STORES)
    }
}

// Solves for the right-hand side, from what x holds, and adds what it counted to the statistics. Refused, x, the statistics and the
// hierarchy stay as they were.
pub fn solve(
    handle: Handle,
    words: &[u32],
    floats: &mut [f64],
    statistics: &mut [MultigridLevelStatistics],
    rhs: &[f64],
    x: &mut [f64],
    options: LinearSolverOptions,
) -> Result<LinearSolveReport, Refusal>
    ensures { SolveCall handle words.now floats.old floats.new statistics.old statistics.new rhs.now x.old x.new options result }
{
    let records = statistics.len();
    let run = run(handle, words, floats, records, rhs, x, options);
    statistics::count(run, statistics)
}
