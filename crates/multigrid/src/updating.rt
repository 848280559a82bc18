// mod.rs: `update_values`, of any handle and any stores. Each array and store is lent by itself, as README names the call and C makes it.
ghost use Rattle.std.specs.Prelude.{length};
ghost use Rattle.multigrid.specs.UpdatingCall.{UpdateCall};

use index_check::check;
use options::Handle;
use refusal::Refusal;
use solver::MultigridLevelStatistics;

// New coefficients on the pattern of the build. Refused, the hierarchy stays as it was. Of the statistics the number of records alone
// is read.
pub fn update_values(
    handle: Handle,
    offsets: &[u32],
    columns: &[u32],
    values: &[f64],
    words: &[u32],
    floats: &mut [f64],
    statistics: &[MultigridLevelStatistics],
) -> Result<(), Refusal>
    ensures { UpdateCall handle words.now floats.old floats.new (length statistics.now) offsets.now columns.now values.now result }
{
    if check::check(handle, words, floats.len(), statistics.len()) {
        update::update(handle, offsets, columns, values, words, floats)
    } else {
        Err(refusal::UNSOUND_STORES)
    }
}
