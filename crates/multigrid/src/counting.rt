// mod.rs: `statistics`, of any handle and any stores. Each store is lent by itself, as README names the call and C makes it.
ghost use Rattle.std.specs.Prelude.{◌≡◌, length};
ghost use Rattle.multigrid.specs.CountingCall.{counted_of};

use index_check::check;
use options::Handle;
use refusal::Refusal;
use solver::MultigridLevelStatistics;

// How many records at the front of the statistics are the levels'.
pub fn statistics(
    handle: Handle,
    words: &[u32],
    floats: &[f64],
    statistics: &[MultigridLevelStatistics],
) -> Result<u64, Refusal>
    ensures { result ≡ counted_of handle words.now floats.now (length statistics.now) }
{
    if check::check(handle, words, floats.len(), statistics.len()) {
        Ok(handle.levels)
    } else {
        Err(refusal::UNSOUND_STORES)
    }
}
