// SO: tolerances and limit of a solve, its right-hand side and its start. The two vectors are lent one by one, as the call of a solve
// takes them; each is as long as the largest one of a problem file.
ghost use Rattle.std.specs.Prelude.{◌≡◌, ◌≤◌};
ghost use Rattle.record_format.specs.Format.{limits_at, solve_ok, read_solve};
ghost use Rattle.record_format.specs.Answers.{ProblemIs};
ghost use Rattle.record_format.specs.Steps.{VectorsLaid};

use crate::bytes::{float_at, read_floats, u64_at};
use crate::marks::{Mark, is_marked};
use refusal::Refusal;
use solver::LinearSolverOptions;

// Whether bytes are an SO record for so many rows.
fn solve_ok(b: &[u8], rows: usize) -> bool
    ensures { result ≡ solve_ok rows b.now }
{
    if rows <= 64 {
        is_marked(b, Mark::Solve) & (b.len() == 26 + 16 * rows)
    } else {
        false
    }
}

// The vectors of a solve of so many rows, to the starts of two slices.
fn lay_vectors(b: &[u8], rows: usize, rhs: &mut [f64; 64], start: &mut [f64; 64])
    requires { rows ≤ 64 }
    ensures { VectorsLaid b.now rows rhs.old rhs.new start.old start.new }
{
    read_floats(b, 26, rows, rhs);
    read_floats(b, 26 + 8 * rows, rows, start);
}

// The tolerances and the limit of a solve.
fn limits_at(b: &[u8]) -> LinearSolverOptions
    ensures { result ≡ limits_at b.now }
{
    LinearSolverOptions {
        absolute_tolerance: float_at(b, 2),
        relative_tolerance: float_at(b, 10),
        max_iterations: u64_at(b, 18),
    }
}

// The solve of an SO record: its vectors to the starts of two slices.
pub fn read_solve(
    b: &[u8],
    rows: usize,
    rhs: &mut [f64; 64],
    start: &mut [f64; 64],
) -> Result<LinearSolverOptions, Refusal>
    ensures { ProblemIs (read_solve rows b.now) rhs.old rhs.new start.old start.new result }
{
    if solve_ok(b, rows) {
        lay_vectors(b, rows, rhs, start);
        Ok(limits_at(b))
    } else {
        Err(crate::BAD_RECORD)
    }
}
