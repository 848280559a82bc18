// The functions of `smoother`: the DIC diagonal, the sweeps, and their order. The places of the level cross as numbers,
// and so does the kind of a smoother: C has no enum of the source's.
ghost use Rattle.std.specs.Prelude.{◌≤◌, length};
ghost use Rattle.refusal.specs.Outcome.{verdict_of};
ghost use Rattle.store.specs.Region.{part};
ghost use Rattle.matrix.specs.Kernel.{kernel_at};
ghost use Rattle.gauss_seidel.specs.Sweep.{gauss_seidel_of, dic_sweep_of};
ghost use Rattle.gauss_seidel.specs.Contract.{GaussSeidelOk, SmoothOk, Both};
ghost use Rattle.dic.specs.Dic.{dic_of, DicOk, Settled};
ghost use Rattle.smoother.specs.Smooth.{swept_of, smooth_of, SmoothDone};
ghost use Rattle.export.specs.Flat.{is_set, smoother_of};
ghost use Rattle.probe.specs.Probe.{symmetric_of, Told};

use export::smoother_of;
use matrix::SymmetricMatrix;
use meshprobe::answer;
use smoother::LevelScratch;

#[unsafe(no_mangle)]
pub extern "C" fn probe_update_dic_diagonal(
    w: &[u32],
    f: &mut [f64],
    rows: usize,
    diagonal: usize,
    inverse: usize,
    offsets: usize,
    neighbors: usize,
    coefficients: usize,
    d: usize,
    level: u64,
    place: &mut [u64],
) -> u64
    requires dic_ok { DicOk w.now (length f.old) (symmetric_of rows diagonal inverse offsets neighbors coefficients) d }
    requires in_bounds { 2 ≤ length place.old }
    ensures told { Told
        (verdict_of (dic_of level (kernel_at (symmetric_of rows diagonal inverse offsets neighbors coefficients) w.now f.old)))
        place.old place.new result }
    ensures settled { Settled d rows
        (dic_of level (kernel_at (symmetric_of rows diagonal inverse offsets neighbors coefficients) w.now f.old))
        f.old f.new
        (verdict_of (dic_of level (kernel_at (symmetric_of rows diagonal inverse offsets neighbors coefficients) w.now f.old))) }
{
    let s = SymmetricMatrix {
        rows,
        diagonal,
        inverse,
        offsets,
        neighbors,
        coefficients,
    };
    answer(dic::update_dic_diagonal(w, f, s, d, level), place)
}

#[unsafe(no_mangle)]
pub extern "C" fn probe_gauss_seidel(
    w: &[u32],
    f: &mut [f64],
    rows: usize,
    diagonal: usize,
    inverse: usize,
    offsets: usize,
    neighbors: usize,
    coefficients: usize,
    rhs: usize,
    x: usize,
    work: usize,
    symmetric: u8,
)
    requires { GaussSeidelOk w.now (length f.old) (symmetric_of rows diagonal inverse offsets neighbors coefficients) rhs x work }
    ensures { Both rows x work
        (gauss_seidel_of (kernel_at (symmetric_of rows diagonal inverse offsets neighbors coefficients) w.now f.old) (is_set symmetric)
        (part rhs rows f.old) (part x rows f.old))
        f.old f.new }
{
    let s = SymmetricMatrix {
        rows,
        diagonal,
        inverse,
        offsets,
        neighbors,
        coefficients,
    };
    gauss_seidel::gauss_seidel(w, f, s, rhs, x, work, symmetric != 0);
}

#[unsafe(no_mangle)]
pub extern "C" fn probe_dic_sweep(
    w: &[u32],
    f: &mut [f64],
    rows: usize,
    diagonal: usize,
    inverse: usize,
    offsets: usize,
    neighbors: usize,
    coefficients: usize,
    dic: usize,
    rhs: usize,
    x: usize,
    work: usize,
    correction: usize,
)
    requires { SmoothOk w.now (length f.old) (symmetric_of rows diagonal inverse offsets neighbors coefficients) dic rhs x work correction }
    ensures { Both rows x correction
        (dic_sweep_of (kernel_at (symmetric_of rows diagonal inverse offsets neighbors coefficients) w.now f.old)
        (part dic rows f.old) (part rhs rows f.old) (part x rows f.old))
        f.old f.new }
{
    let s = SymmetricMatrix {
        rows,
        diagonal,
        inverse,
        offsets,
        neighbors,
        coefficients,
    };
    dic::dic_sweep(w, f, s, dic, rhs, x, work, correction);
}

#[unsafe(no_mangle)]
pub extern "C" fn probe_smooth(
    w: &[u32],
    f: &mut [f64],
    rows: usize,
    diagonal: usize,
    inverse: usize,
    offsets: usize,
    neighbors: usize,
    coefficients: usize,
    dic: usize,
    kind: u8,
    rhs: usize,
    x: usize,
    work: usize,
    correction: usize,
    sweeps: u64,
    place: &mut [u64],
) -> u64
    requires smooth_ok { SmoothOk w.now (length f.old) (symmetric_of rows diagonal inverse offsets neighbors coefficients) dic rhs x work correction }
    requires in_bounds { 2 ≤ length place.old }
    ensures told { Told
        (verdict_of (smooth_of (kernel_at (symmetric_of rows diagonal inverse offsets neighbors coefficients) w.now f.old)
        (part dic rows f.old) (part rhs rows f.old) (smoother_of kind) sweeps (part x rows f.old)))
        place.old place.new result }
    ensures smooth_done { SmoothDone rows x work correction
        (smooth_of (kernel_at (symmetric_of rows diagonal inverse offsets neighbors coefficients) w.now f.old)
        (part dic rows f.old) (part rhs rows f.old) (smoother_of kind) sweeps (part x rows f.old))
        (swept_of (kernel_at (symmetric_of rows diagonal inverse offsets neighbors coefficients) w.now f.old)
        (part dic rows f.old) (part rhs rows f.old) (smoother_of kind) sweeps (part x rows f.old))
        f.old f.new
        (verdict_of (smooth_of (kernel_at (symmetric_of rows diagonal inverse offsets neighbors coefficients) w.now f.old)
        (part dic rows f.old) (part rhs rows f.old) (smoother_of kind) sweeps (part x rows f.old))) }
{
    let s = SymmetricMatrix {
        rows,
        diagonal,
        inverse,
        offsets,
        neighbors,
        coefficients,
    };
    // A smoother takes no product.
    let v = LevelScratch {
        rhs,
        x,
        work,
        correction,
        product: correction,
    };
    let smoother = smoother_of(kind as u64);
    answer(smoother::smooth(w, f, s, dic, smoother, v, sweeps), place)
}
