// Records written over the start of bytes that are lent. A matrix and a solve come as the slices that `write_matrix` and `write_solve` of
// docs/PROMISES.md take, beside the bytes to write to.
ghost use Rattle.std.specs.Prelude.{◌≡◌, [], ◌∷◌, ◌++◌, length};
ghost use Rattle.refusal.specs.Outcome.{verdict_of};
ghost use Rattle.store.specs.Region.{Wrote};
ghost use Rattle.export.specs.Structs.{smoother_number, residual_norm_number, coarse_solver_number};
ghost use Rattle.record_format.specs.Bytes.{bytes4, bytes8, float_bytes, flat};
ghost use Rattle.record_format.specs.Format.{letters_of, flag_number, counts_of, controls_bytes, matrix_bytes, values_bytes, solve_bytes};
ghost use Rattle.record_format.specs.Steps.{SpaceFor, MatrixSpace, ValuesSpace, SolveSpace};
ghost use Rattle.record_format.specs.Writing.{matrix_of, matrix_room, values_room, solve_room, write_controls, write_matrix, write_values, write_solve, WrittenIs};

use crate::bytes::{put_byte, put_f64, put_u32, put_u64, write_floats, write_longs, write_words};
use crate::marks::Mark;
use options::{MultigridCoarseSolver, MultigridOptions, MultigridResidualNorm, MultigridSmoother};
use refusal::Refusal;
use solver::LinearSolverOptions;

// A mark at the start.
pub fn put_mark(out: &mut [u8], mark: Mark)
    requires { SpaceFor 0 2 (length out.old) }
    ensures { Wrote 0 2 (letters_of mark) out.old out.new }
{
    let [first, second] = mark.letters();
    put_byte(out, 0, first);
    put_byte(out, 1, second);
}

// ---- MX

// Whether a matrix may be written.
fn matrix_room(offsets: usize, columns: usize, values: usize, size: usize) -> Result<(), Refusal>
    ensures { result ≡ verdict_of (matrix_room offsets columns values size) }
{
    if offsets > 65537 {
        Err(refusal::TOO_LARGE)
    } else if columns > 1048576 {
        Err(refusal::TOO_LARGE)
    } else if offsets == 0 {
        Err(refusal::BAD_OFFSETS)
    } else if columns != values {
        Err(refusal::BAD_OFFSETS)
    } else if 14 + 4 * (offsets - 1) + 12 * columns > size {
        Err(refusal::STORE_TOO_SMALL)
    } else {
        Ok(())
    }
}

// The mark, the rows and the entries of a matrix.
pub fn put_sizes(out: &mut [u8], rows: u64, entries: u64)
    requires { SpaceFor 0 10 (length out.old) }
    ensures { Wrote 0 10 (letters_of Mark.Matrix ++ bytes4 rows ++ bytes4 entries) out.old out.new }
{
    put_mark(out, Mark::Matrix);
    put_u32(out, 2, rows);
    put_u32(out, 6, entries);
}

// The record of a matrix; its length is the answer.
fn put_matrix(offsets: &[u32], columns: &[u32], values: &[f64], out: &mut [u8]) -> usize
    requires { MatrixSpace (length offsets.now) (length columns.now) (length values.now) (length out.old) }
    ensures { Wrote 0 result (matrix_bytes (matrix_of offsets.now columns.now values.now)) out.old out.new }
{
    let rows = offsets.len() - 1;
    let entries = columns.len();
    put_sizes(out, rows as u64, entries as u64);
    write_words(out, 10, offsets);
    let first = 10 + 4 * (rows + 1);
    write_words(out, first, columns);
    let second = first + 4 * entries;
    write_floats(out, second, values);
    second + 8 * entries
}

// The MX record of a matrix.
pub fn write_matrix(
    offsets: &[u32],
    columns: &[u32],
    values: &[f64],
    out: &mut [u8],
) -> Result<usize, Refusal>
    ensures { WrittenIs (write_matrix (length out.old) offsets.now columns.now values.now) out.old out.new result }
{
    matrix_room(offsets.len(), columns.len(), values.len(), out.len())?;
    Ok(put_matrix(offsets, columns, values, out))
}

// ---- FW and UP

// Whether so many floats may be written.
fn values_room(values: usize, size: usize) -> Result<(), Refusal>
    ensures { result ≡ verdict_of (values_room values size) }
{
    if values > 1048576 {
        Err(refusal::TOO_LARGE)
    } else if 2 + 8 * values > size {
        Err(refusal::STORE_TOO_SMALL)
    } else {
        Ok(())
    }
}

// The record of floats; its length is the answer.
fn put_values(mark: Mark, values: &[f64], out: &mut [u8]) -> usize
    requires { ValuesSpace (length values.now) (length out.old) }
    ensures { Wrote 0 result (values_bytes mark values.now) out.old out.new }
{
    put_mark(out, mark);
    write_floats(out, 2, values);
    2 + 8 * values.len()
}

// The FW record of weights or the UP record of values.
pub fn write_values(mark: Mark, values: &[f64], out: &mut [u8]) -> Result<usize, Refusal>
    ensures { WrittenIs (write_values (length out.old) mark values.now) out.old out.new result }
{
    values_room(values.len(), out.len())?;
    Ok(put_values(mark, values, out))
}

// ---- SO

// Whether a solve may be written.
fn solve_room(rhs: usize, start: usize, size: usize) -> Result<(), Refusal>
    ensures { result ≡ verdict_of (solve_room rhs start size) }
{
    if rhs > 65536 {
        Err(refusal::TOO_LARGE)
    } else if rhs != start {
        Err(refusal::WRONG_LENGTH)
    } else if 26 + 16 * rhs > size {
        Err(refusal::STORE_TOO_SMALL)
    } else {
        Ok(())
    }
}

// The mark, the tolerances and the limit of a solve.
fn put_limits(out: &mut [u8], limits: LinearSolverOptions)
    requires { SpaceFor 0 26 (length out.old) }
    ensures { Wrote 0 26 (letters_of Mark.Solve ++ float_bytes limits.absolute_tolerance ++ float_bytes limits.relative_tolerance ++ bytes8 limits.max_iterations) out.old out.new }
{
    put_mark(out, Mark::Solve);
    put_f64(out, 2, limits.absolute_tolerance);
    put_f64(out, 10, limits.relative_tolerance);
    put_u64(out, 18, limits.max_iterations);
}

// The record of a solve; its length is the answer.
fn put_solve(limits: LinearSolverOptions, rhs: &[f64], start: &[f64], out: &mut [u8]) -> usize
    requires { SolveSpace (length rhs.now) (length start.now) (length out.old) }
    ensures { Wrote 0 result (solve_bytes (record { limits = limits; rhs = rhs.now; start = start.now })) out.old out.new }
{
    let rows = rhs.len();
    put_limits(out, limits);
    write_floats(out, 26, rhs);
    let second = 26 + 8 * rows;
    write_floats(out, second, start);
    second + 8 * rows
}

// The SO record of a solve.
pub fn write_solve(
    limits: LinearSolverOptions,
    rhs: &[f64],
    start: &[f64],
    out: &mut [u8],
) -> Result<usize, Refusal>
    ensures { WrittenIs (write_solve (length out.old) limits rhs.now start.now) out.old out.new result }
{
    solve_room(rhs.len(), start.len(), out.len())?;
    Ok(put_solve(limits, rhs, start, out))
}

// ---- CO

// An enum's place in the source.
fn smoother_number(s: MultigridSmoother) -> u8
    ensures { result ≡ smoother_number s }
{
    s as u8
}

// The same of a norm.
fn residual_norm_number(n: MultigridResidualNorm) -> u8
    ensures { result ≡ residual_norm_number n }
{
    n as u8
}

// The same of a coarse solver.
fn coarse_solver_number(s: MultigridCoarseSolver) -> u8
    ensures { result ≡ coarse_solver_number s }
{
    s as u8
}

// The number of a yes or no.
fn flag_number(b: bool) -> u8
    ensures { result ≡ flag_number b }
{
    u8::from(b)
}

// The mark, the smoother and the norm of controls.
fn put_kinds(out: &mut [u8], o: MultigridOptions)
    requires { SpaceFor 0 4 (length out.old) }
    ensures { Wrote 0 4 (letters_of Mark.Controls ++ (smoother_number o.smoother ∷ residual_norm_number o.residual_norm ∷ [])) out.old out.new }
{
    let smoother = o.smoother;
    let norm = o.residual_norm;
    put_mark(out, Mark::Controls);
    put_byte(out, 2, smoother_number(smoother));
    put_byte(out, 3, residual_norm_number(norm));
}

// The nine counts of controls that stand together.
fn put_counts(out: &mut [u8], o: MultigridOptions)
    requires { SpaceFor 4 72 (length out.old) }
    ensures { Wrote 4 72 (flat bytes8 (counts_of o)) out.old out.new }
{
    let counts = [
        o.pre_sweeps,
        o.post_sweeps,
        o.finest_sweeps,
        o.sweep_level_multiplier,
        o.max_sweeps,
        o.coarsest_cells,
        o.max_levels,
        o.merge_levels,
        o.krylov_dimension,
    ];
    write_longs(out, 4, &counts);
}

// The coarse solver of controls and its tolerances.
fn put_coarse(out: &mut [u8], o: MultigridOptions)
    requires { SpaceFor 76 17 (length out.old) }
    ensures { Wrote 76 17 ((coarse_solver_number o.coarse_solver ∷ []) ++ float_bytes o.coarse_absolute_tolerance ++ float_bytes o.coarse_relative_tolerance) out.old out.new }
{
    let solver = o.coarse_solver;
    put_byte(out, 76, coarse_solver_number(solver));
    put_f64(out, 77, o.coarse_absolute_tolerance);
    put_f64(out, 85, o.coarse_relative_tolerance);
}

// The last three of controls: the coarse limit, the yes or no, and the cap.
fn put_last(out: &mut [u8], o: MultigridOptions)
    requires { SpaceFor 93 17 (length out.old) }
    ensures { Wrote 93 17 (bytes8 o.coarse_max_iterations ++ (flag_number o.scale_correction ∷ []) ++ bytes8 o.max_aggregate_cells) out.old out.new }
{
    put_u64(out, 93, o.coarse_max_iterations);
    put_byte(out, 101, flag_number(o.scale_correction));
    put_u64(out, 102, o.max_aggregate_cells);
}

// The record of controls.
fn put_controls(out: &mut [u8], o: MultigridOptions)
    requires { SpaceFor 0 110 (length out.old) }
    ensures { Wrote 0 110 (controls_bytes o) out.old out.new }
{
    put_kinds(out, o);
    put_counts(out, o);
    put_coarse(out, o);
    put_last(out, o);
}

// The CO record of controls.
pub fn write_controls(o: MultigridOptions, out: &mut [u8]) -> Result<usize, Refusal>
    ensures { WrittenIs (write_controls (length out.old) o) out.old out.new result }
{
    if out.len() < 110 {
        Err(refusal::STORE_TOO_SMALL)
    } else {
        put_controls(out, o);
        Ok(110)
    }
}
