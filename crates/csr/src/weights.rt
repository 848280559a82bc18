// Document 01's questions 4 and 5, of the weights that a caller lends: nothing is asked of them beforehand.
ghost use Rattle.std.specs.Prelude.{◌≡◌};
ghost use Rattle.refusal.specs.Outcome.{verdict_of};
ghost use Rattle.csr.specs.Weights.{weights_ok, weights_asked};

use refusal::Refusal;

// Question 5. Minus zero is not below zero.
fn weights_fit(weights: &[f64]) -> bool
    ensures { result ≡ weights_ok weights.now }
{
    weights.iter().all(|weight| options::is_tolerable(*weight))
}

// Questions 4 and 5, of the weights of a matrix with that many entries.
pub fn check_weights(weights: &[f64], entries: usize) -> Result<(), Refusal>
    ensures { result ≡ verdict_of (weights_asked entries weights.now) }
{
    if weights.len() != entries {
        return Err(refusal::WEIGHT_COUNT);
    }
    if !weights_fit(weights) {
        return Err(refusal::BAD_WEIGHT);
    }
    Ok(())
}
