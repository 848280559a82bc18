// mod.rs: the input of a solve, questions 20 and 21.
ghost use Rattle.std.specs.Prelude.{◌≡◌};
ghost use Rattle.refusal.specs.Outcome.{verdict_of};
ghost use Rattle.solve.specs.Input.{input_ok};
ghost use Rattle.solve.specs.Steps.{asked_of};

use refusal::Refusal;
use solver::LinearSolverOptions;

// Right-hand side and start are two slices in both functions: C lends two arrays, and each is asked for its own length.

// Question 21: a limit above zero, tolerances finite and not below zero, both vectors finite.
fn input_fits(s: LinearSolverOptions, rhs: &[f64], x: &[f64]) -> bool
    ensures { result ≡ input_ok s rhs.now x.now }
{
    (1 <= s.max_iterations)
        & options::is_tolerable(s.absolute_tolerance)
        & options::is_tolerable(s.relative_tolerance)
        & vector::all_finite(rhs, rhs.len(), 0)
        & vector::all_finite(x, x.len(), 0)
}

// Questions 20 and 21, of a system of so many rows.
pub fn ask_input(n: usize, s: LinearSolverOptions, rhs: &[f64], x: &[f64]) -> Result<(), Refusal>
    ensures { result ≡ verdict_of (asked_of n s rhs.now x.now) }
{
    if rhs.len() != n {
        return Err(refusal::WRONG_LENGTH);
    }
    if x.len() != n {
        return Err(refusal::WRONG_LENGTH);
    }
    if !input_fits(s, rhs, x) {
        return Err(refusal::BAD_INPUT);
    }
    Ok(())
}
