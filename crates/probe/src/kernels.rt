// The functions of `matrix` and `coefficients`: the kernel of a level. Its places cross as numbers.
ghost use Rattle.std.specs.Prelude.{◌≡◌, ◌+◌, ◌≤◌, length};
ghost use Rattle.refusal.specs.Outcome.{verdict_of};
ghost use Rattle.store.specs.Region.{at, idx, part, Wrote};
ghost use Rattle.store.specs.Vector.{tab};
ghost use Rattle.matrix.specs.Kernel.{kernel_at, apply_of, residual_of, row_sums_of, KernelOk};
ghost use Rattle.coefficients.specs.Contract.{update_at, update_with, UpdateOk, Updated, MirrorsOk};
ghost use Rattle.coefficients.specs.Mirrors.{mirrors_agree};
ghost use Rattle.probe.specs.Probe.{flag, symmetric_of, entries_of, Told};

use coefficients::Entries;
use matrix::{SymmetricMatrix, residual};
use meshprobe::{answer, number};

#[unsafe(no_mangle)]
pub extern "C" fn probe_apply(
    w: &[u32],
    f: &mut [f64],
    rows: usize,
    diagonal: usize,
    inverse: usize,
    offsets: usize,
    neighbors: usize,
    coefficients: usize,
    x: usize,
    out: usize,
)
    requires kernel_ok { KernelOk w.now x (symmetric_of rows diagonal inverse offsets neighbors coefficients) }
    requires rows_bound { x + rows ≤ out }
    requires rows_in_bounds { out + rows ≤ length f.old }
    ensures { Wrote out rows
        (apply_of (kernel_at (symmetric_of rows diagonal inverse offsets neighbors coefficients) w.now f.old)
        (part x rows f.old))
        f.old f.new }
{
    let s = SymmetricMatrix {
        rows,
        diagonal,
        inverse,
        offsets,
        neighbors,
        coefficients,
    };
    matrix::apply(w, f, s, x, out);
}

#[unsafe(no_mangle)]
pub extern "C" fn probe_residual(
    w: &[u32],
    f: &mut [f64],
    rows: usize,
    diagonal: usize,
    inverse: usize,
    offsets: usize,
    neighbors: usize,
    coefficients: usize,
    x: usize,
    rhs: usize,
    out: usize,
)
    requires kernel_ok { KernelOk w.now rhs (symmetric_of rows diagonal inverse offsets neighbors coefficients) }
    requires rows_bound { rhs + rows ≤ x }
    requires rows_bound_2 { x + rows ≤ out }
    requires rows_in_bounds { out + rows ≤ length f.old }
    ensures { Wrote out rows
        (residual_of (kernel_at (symmetric_of rows diagonal inverse offsets neighbors coefficients) w.now f.old)
        (part x rows f.old) (part rhs rows f.old))
        f.old f.new }
{
    let s = SymmetricMatrix {
        rows,
        diagonal,
        inverse,
        offsets,
        neighbors,
        coefficients,
    };
    residual::residual(w, f, s, x, rhs, out);
}

#[unsafe(no_mangle)]
pub extern "C" fn probe_row_sums_into(
    w: &[u32],
    f: &mut [f64],
    rows: usize,
    diagonal: usize,
    inverse: usize,
    offsets: usize,
    neighbors: usize,
    coefficients: usize,
    sums: usize,
)
    requires kernel_ok { KernelOk w.now sums (symmetric_of rows diagonal inverse offsets neighbors coefficients) }
    requires rows_in_bounds { sums + rows ≤ length f.old }
    ensures { Wrote sums rows
        (row_sums_of (kernel_at (symmetric_of rows diagonal inverse offsets neighbors coefficients) w.now f.old))
        f.old f.new }
{
    let s = SymmetricMatrix {
        rows,
        diagonal,
        inverse,
        offsets,
        neighbors,
        coefficients,
    };
    matrix::row_sums_into(w, f, s, sums);
}

#[unsafe(no_mangle)]
pub extern "C" fn probe_update(
    w: &[u32],
    f: &mut [f64],
    rows: usize,
    diagonal: usize,
    inverse: usize,
    offsets: usize,
    neighbors: usize,
    coefficients: usize,
    entries: usize,
    diagonals: usize,
    faces: usize,
    values: usize,
    level: u64,
    place: &mut [u64],
) -> u64
    requires update_ok { UpdateOk w.now (length f.old) (symmetric_of rows diagonal inverse offsets neighbors coefficients)
        (entries_of entries diagonals faces values) }
    requires in_bounds { 2 ≤ length place.old }
    ensures told { Told
        (verdict_of (update_at level (symmetric_of rows diagonal inverse offsets neighbors coefficients)
        (entries_of entries diagonals faces values) w.now f.old))
        place.old place.new result }
    ensures updated { Updated w.now (symmetric_of rows diagonal inverse offsets neighbors coefficients)
        (update_at level (symmetric_of rows diagonal inverse offsets neighbors coefficients)
        (entries_of entries diagonals faces values) w.now f.old)
        f.old f.new
        (verdict_of (update_at level (symmetric_of rows diagonal inverse offsets neighbors coefficients)
        (entries_of entries diagonals faces values) w.now f.old)) }
{
    let s = SymmetricMatrix {
        rows,
        diagonal,
        inverse,
        offsets,
        neighbors,
        coefficients,
    };
    let e = Entries {
        entries,
        diagonals,
        faces,
        values,
    };
    answer(coefficients::update(w, f, s, e, level), place)
}

#[unsafe(no_mangle)]
pub extern "C" fn probe_update_given(
    w: &[u32],
    given: &[f64],
    f: &mut [f64],
    rows: usize,
    diagonal: usize,
    inverse: usize,
    offsets: usize,
    neighbors: usize,
    coefficients: usize,
    entries: usize,
    diagonals: usize,
    faces: usize,
    values: usize,
    level: u64,
    place: &mut [u64],
) -> u64
    requires update_ok { UpdateOk w.now (length f.old) (symmetric_of rows diagonal inverse offsets neighbors coefficients)
        (entries_of entries diagonals faces values) }
    requires entries_in_bounds { entries ≤ length given.now }
    requires in_bounds { 2 ≤ length place.old }
    ensures told { Told
        (verdict_of (update_with level (symmetric_of rows diagonal inverse offsets neighbors coefficients)
        (entries_of entries diagonals faces values) w.now given.now))
        place.old place.new result }
    ensures updated { Updated w.now (symmetric_of rows diagonal inverse offsets neighbors coefficients)
        (update_with level (symmetric_of rows diagonal inverse offsets neighbors coefficients)
        (entries_of entries diagonals faces values) w.now given.now)
        f.old f.new
        (verdict_of (update_with level (symmetric_of rows diagonal inverse offsets neighbors coefficients)
        (entries_of entries diagonals faces values) w.now given.now)) }
{
    let s = SymmetricMatrix {
        rows,
        diagonal,
        inverse,
        offsets,
        neighbors,
        coefficients,
    };
    let e = Entries {
        entries,
        diagonals,
        faces,
        values,
    };
    let count = store::wide(w[offsets + rows]);
    coefficients::pick_given(w, given, f, count, faces, coefficients);
    answer(coefficients::update_given(w, given, f, s, e, level), place)
}

#[unsafe(no_mangle)]
pub extern "C" fn probe_mirrors_agree(
    w: &[u32],
    values: &[f64],
    faces: usize,
    upper: usize,
    lower: usize,
) -> u8
    requires { MirrorsOk w.now (length values.now) faces upper lower }
    ensures { result ≡ flag (mirrors_agree faces (part upper faces w.now)
        (part lower faces w.now) values.now) }
{
    number(coefficients::mirrors_agree(w, values, faces, upper, lower))
}

#[unsafe(no_mangle)]
pub extern "C" fn probe_take_faces(
    w: &[u32],
    values: &[f64],
    f: &mut [f64],
    faces: usize,
    upper: usize,
    lower: usize,
    to: usize,
) -> u8
    requires mirrors_ok { MirrorsOk w.now (length values.now) faces upper lower }
    requires faces_in_bounds { to + faces ≤ length f.old }
    ensures value { result ≡ flag (mirrors_agree faces (part upper faces w.now)
        (part lower faces w.now) values.now) }
    ensures wrote { Wrote to faces
        (tab (λ k. at values.now (idx (part upper faces w.now) k)) faces)
        f.old f.new }
{
    number(coefficients::take_faces(w, values, f, faces, upper, lower, to))
}
