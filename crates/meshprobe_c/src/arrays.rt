// The functions of `csr`. They ask nothing of the arrays.
ghost use Rattle.std.specs.Prelude.{◌≡◌};
ghost use Rattle.refusal.specs.Outcome.{verdict_of};
ghost use Rattle.csr.specs.Questions.{matrix_asked};
ghost use Rattle.csr.specs.Weights.{weights_asked};
ghost use Rattle.meshprobe_c.specs.Mesh.{answer_of};

use refusal::Refusal;

// Zero where it passed, or the number of a refusal that names no place.
fn unplaced(verdict: Result<(), Refusal>) -> u64
    ensures { result ≡ answer_of verdict }
{
    match verdict {
        Ok(()) => 0,
        Err(refusal) => refusal.number,
    }
}

#[unsafe(no_mangle)]
pub extern "C" fn probe_check_matrix(
    rows: usize,
    offsets: &[u32],
    columns: &[u32],
    values: &[f64],
) -> u64
    ensures { result ≡ answer_of (verdict_of (matrix_asked rows offsets.now columns.now values.now)) }
{
    unplaced(csr::check_matrix(rows, offsets, columns, values))
}

#[unsafe(no_mangle)]
pub extern "C" fn probe_check_weights(weights: &[f64], entries: usize) -> u64
    ensures { result ≡ answer_of (verdict_of (weights_asked entries weights.now)) }
{
    unplaced(csr::check_weights(weights, entries))
}
