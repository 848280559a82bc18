// acceleration.rs: restarted flexible GCR for residual-dependent multigrid corrections. A * p is stored with each
// direction p: the V-cycle need be neither symmetric nor fixed. The caller checks b - A * x.
ghost use Rattle.std.specs.Prelude.{◌≤◌, ◌<◌, length};
ghost use Rattle.store.specs.Region.{part};
ghost use Rattle.acceleration.specs.DirectionsContract.{pair_at, memory_at, Stepped, PassOk};
ghost use Rattle.acceleration.specs.Gcr.{twice_of, correct_of};
ghost use Rattle.acceleration.specs.AccelerationContract.{Restarted, CorrectOk, CorrectedBy};

use crate::advance::advance;
use crate::directions::pass;
use crate::normalize::normalize;
use crate::workspace::{GcrWorkspace, PairPlace};
use refusal::Refusal;

// Reorthogonalised modified Gram-Schmidt: two passes keep the small history reliable where consecutive V-cycles give
// nearly parallel images.
fn orthogonalize(
    f: &mut [f64],
    g: GcrWorkspace,
    used: usize,
    pair: PairPlace,
) -> Result<(), Refusal>
    requires { PassOk (length f.old) g.rows used g.directions g.images pair.direction pair.image }
    ensures { Stepped g.rows pair.direction pair.image
        (twice_of g.rows (memory_at used g.rows g.directions g.images f.old)
        (pair_at g.rows pair.direction pair.image f.old))
        f.old f.new result }
{
    pass(f, g, used, pair)?;
    pass(f, g, used, pair)
}

// How many pairs stay: none where the memory is full.
fn restarted(krylov: usize, used: usize) -> usize
    requires used_le_krylov { used ≤ krylov }
    requires krylov_nonzero { 0 < krylov }
    ensures { Restarted krylov used result }
{
    if used == krylov { 0 } else { used }
}

// The V-cycle's correction and its image made orthogonal to the stored pairs, stored as the next, and the solution moved along it.
pub fn correct(
    f: &mut [f64],
    g: GcrWorkspace,
    used: usize,
    solution: usize,
    residual: usize,
    pair: PairPlace,
) -> Result<usize, Refusal>
    requires { CorrectOk (length f.old) g.rows g.krylov used solution g.directions g.images residual
        pair.direction pair.image }
    ensures { CorrectedBy g.rows g.krylov solution g.directions g.images pair.direction pair.image
        (correct_of g.rows g.krylov (memory_at used g.rows g.directions g.images f.old)
        (pair_at g.rows pair.direction pair.image f.old) (part residual g.rows f.old)
        (part solution g.rows f.old))
        f.old f.new result }
{
    let kept = restarted(g.krylov, used);
    orthogonalize(f, g, kept, pair)?;
    let stored = g.pair(kept);
    normalize(f, g.rows, stored, pair)?;
    advance(f, g.rows, solution, stored, residual)?;
    Ok(kept + 1)
}
