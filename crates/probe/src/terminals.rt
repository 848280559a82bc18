// The functions of `cholesky` and `coarse`: the terminal level. Its places cross as numbers.
ghost use Rattle.std.specs.Prelude.{◌+◌, ◌≤◌, length};
ghost use Rattle.refusal.specs.Outcome.{verdict_of};
ghost use Rattle.store.specs.Region.{part, Wrote};
ghost use Rattle.cholesky.specs.Triangle.{tri};
ghost use Rattle.cholesky.specs.Factor.{cholesky_of};
ghost use Rattle.cholesky.specs.Contract.{csr_at, coupled_at, factor_at, TerminalOk, Factored};
ghost use Rattle.cholesky.specs.TriangularFactor.{solve_factor_of};
ghost use Rattle.coarse.specs.Terminal.{terminal_of};
ghost use Rattle.coarse.specs.Contract.{SolutionOk, Solved};
ghost use Rattle.cholesky.specs.TriangularContract.{SolveOk};
ghost use Rattle.probe.specs.Probe.{system_of, Told};

use cholesky::Terminal;
use meshprobe::answer;

#[unsafe(no_mangle)]
pub extern "C" fn probe_cholesky(
    w: &[u32],
    f: &mut [f64],
    rows: usize,
    entries: usize,
    offsets: usize,
    columns: usize,
    values: usize,
    size: usize,
    coupled: usize,
    factor: usize,
    level: u64,
    place: &mut [u64],
) -> u64
    requires terminal_ok { TerminalOk w.now (length f.old) (system_of rows entries offsets columns values size coupled factor) }
    requires in_bounds { 2 ≤ length place.old }
    ensures told { Told
        (verdict_of (cholesky_of level
        (csr_at (system_of rows entries offsets columns values size coupled factor) w.now f.old) size
        (coupled_at (system_of rows entries offsets columns values size coupled factor) w.now)))
        place.old place.new result }
    ensures factored { Factored (system_of rows entries offsets columns values size coupled factor)
        (cholesky_of level
        (csr_at (system_of rows entries offsets columns values size coupled factor) w.now f.old) size
        (coupled_at (system_of rows entries offsets columns values size coupled factor) w.now))
        f.old f.new
        (verdict_of (cholesky_of level
        (csr_at (system_of rows entries offsets columns values size coupled factor) w.now f.old) size
        (coupled_at (system_of rows entries offsets columns values size coupled factor) w.now))) }
{
    let t = Terminal {
        rows,
        entries,
        offsets,
        columns,
        values,
        size,
        coupled,
        factor,
    };
    answer(cholesky::cholesky(w, f, t, level), place)
}

#[unsafe(no_mangle)]
pub extern "C" fn probe_solve_factor(f: &mut [f64], n: usize, l: usize, rhs: usize, x: usize)
    requires solve_ok { SolveOk (length f.old) n l x }
    requires n_bound { rhs + n ≤ x }
    ensures { Wrote x n (solve_factor_of n (part l (tri n) f.old) (part rhs n f.old))
        f.old f.new }
{
    cholesky::solve_factor(f, n, l, rhs, x);
}

#[unsafe(no_mangle)]
pub extern "C" fn probe_solve(
    w: &[u32],
    f: &mut [f64],
    rows: usize,
    entries: usize,
    offsets: usize,
    columns: usize,
    values: usize,
    size: usize,
    coupled: usize,
    factor: usize,
    inverse: usize,
    rhs: usize,
    x: usize,
    work: usize,
    place: &mut [u64],
) -> u64
    requires solution_ok { SolutionOk w.now (length f.old) (system_of rows entries offsets columns values size coupled factor)
        inverse rhs x work }
    requires in_bounds { 2 ≤ length place.old }
    ensures told { Told
        (verdict_of (terminal_of rows (part inverse rows f.old) size
        (coupled_at (system_of rows entries offsets columns values size coupled factor) w.now)
        (factor_at (system_of rows entries offsets columns values size coupled factor) f.old)
        (part rhs rows f.old)))
        place.old place.new result }
    ensures solved { Solved (system_of rows entries offsets columns values size coupled factor) w.now
        inverse rhs x work f.old f.new
        (verdict_of (terminal_of rows (part inverse rows f.old) size
        (coupled_at (system_of rows entries offsets columns values size coupled factor) w.now)
        (factor_at (system_of rows entries offsets columns values size coupled factor) f.old)
        (part rhs rows f.old))) }
{
    let t = Terminal {
        rows,
        entries,
        offsets,
        columns,
        values,
        size,
        coupled,
        factor,
    };
    answer(coarse::solve(w, f, t, inverse, rhs, x, work), place)
}
