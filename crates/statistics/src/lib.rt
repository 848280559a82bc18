// The records of statistics that a caller lends: read, written anew by a build, and counted up by a solve.
#![tactic(auto)]

ghost use Rattle.std.specs.Prelude.{◌≡◌, ◌<◌, length, get_or};
ghost use Rattle.solver.specs.Statistics.{unvisited};
ghost use Rattle.statistics.specs.Contract.{PublishDone, CountOk, CountDone};
ghost use Rattle.statistics.specs.Steps.{FreshAt};

use options::Handle;
use refusal::Refusal;
use solver::{BuildRun, LinearSolveReport, MultigridLevelStatistics, SolveRun};

// The record of a level, for programs that print it.
pub fn record_at(statistics: &[MultigridLevelStatistics], level: usize) -> MultigridLevelStatistics
    requires { level < length statistics.now }
    ensures { result ≡ get_or statistics.now level (unvisited 0) }
{
    statistics[level]
}

// The record that a build leaves at that depth: the rows of the level there, or zeros.
fn fresh(cells: [u64; 128], depth: usize) -> MultigridLevelStatistics
    ensures { FreshAt cells depth result }
{
    MultigridLevelStatistics::unvisited(cells.get(depth).copied().unwrap_or(0))
}

// Every record as a build leaves it. The answer is passed on.
pub fn publish(
    run: BuildRun,
    statistics: &mut [MultigridLevelStatistics],
) -> Result<Handle, Refusal>
    ensures { PublishDone run statistics.old statistics.new result }
{
    for (level, record) in statistics.iter_mut().enumerate() {
        *record = fresh(run.cells, level);
    }
    run.answer
}

// The records of the levels with what a solve counted there. The answer is passed on.
pub fn count(
    run: SolveRun,
    statistics: &mut [MultigridLevelStatistics],
) -> Result<LinearSolveReport, Refusal>
    requires { CountOk run.levels (length statistics.old) }
    ensures { CountDone run statistics.old statistics.new result }
{
    let levels = run.levels as usize;
    for depth in 0..levels {
        statistics[depth] = solver::statistics::count_at(statistics[depth], run.counts, depth);
    }
    run.answer
}
