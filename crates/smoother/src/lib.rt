// `smooth` of smoother.rs: the sweeps of a smoother, and question 25.
#![tactic(auto)]

ghost use Rattle.std.specs.Prelude.{◌≡◌, ◌+◌, ◌*◌, ◌≤◌, length};
ghost use Rattle.store.specs.Region.{part};
ghost use Rattle.matrix.specs.Kernel.{kernel_at};
ghost use Rattle.gauss_seidel.specs.Contract.{SmoothOk};
ghost use Rattle.smoother.specs.Smooth.{is_symmetric, dic_sweeps_of, gauss_seidels_of, swept_of, smooth_of, Smoothed, SmoothDone};
ghost use Rattle.smoother.specs.Scratch.{scratch_of};

use matrix::SymmetricMatrix;
use options::MultigridSmoother;
use refusal::Refusal;

// Where the vectors of a level stand in the floats: right-hand side, x, work, which also holds the residual, correction and product.
// That they lie one after the other behind the matrix and the DIC data, within the floats, is `SmoothOk` in the contracts of the sweeps: it speaks of the
// words, the floats' length, s and dic beside these places, so it is no invariant of this struct.
#[derive(Clone, Copy)]
pub struct LevelScratch {
    pub rhs: usize,
    pub x: usize,
    pub work: usize,
    pub correction: usize,
    pub product: usize,
}

// Those of a level of n rows, one after the other from a start on.
pub fn level_scratch(start: usize, n: usize) -> LevelScratch
    requires { start + 5 * n ≤ 18446744073709551615 }
    ensures { result ≡ scratch_of start n }
{
    LevelScratch {
        rhs: start,
        x: start + n,
        work: start + 2 * n,
        correction: start + 3 * n,
        product: start + 4 * n,
    }
}

// Whether a Gauss-Seidel sweep goes back.
fn is_symmetric(kind: MultigridSmoother) -> bool
    ensures { result ≡ is_symmetric kind }
{
    matches!(kind, MultigridSmoother::SymmetricGaussSeidel)
}

// That many DIC sweeps.
fn dic_sweeps(
    w: &[u32],
    f: &mut [f64],
    s: SymmetricMatrix,
    dic: usize,
    v: LevelScratch,
    sweeps: u64,
)
    requires { SmoothOk w.now (length f.old) s dic v.rhs v.x v.work v.correction }
    ensures { Smoothed s.rows v.x v.work v.correction (dic_sweeps_of (kernel_at s w.now f.old) (part dic s.rows f.old) (part v.rhs s.rows f.old) sweeps (part v.x s.rows f.old)) f.old f.new }
{
    for _i in 0..sweeps {
        dic::dic_sweep(w, f, s, dic, v.rhs, v.x, v.work, v.correction);
    }
}

// That many Gauss-Seidel sweeps. Apart from `dic_sweeps`: the one writes `correction` and the other `work`, as their laws say.
fn gauss_seidels(
    w: &[u32],
    f: &mut [f64],
    s: SymmetricMatrix,
    dic: usize,
    v: LevelScratch,
    symmetric: bool,
    sweeps: u64,
)
    requires { SmoothOk w.now (length f.old) s dic v.rhs v.x v.work v.correction }
    ensures { Smoothed s.rows v.x v.work v.correction (gauss_seidels_of (kernel_at s w.now f.old) (part v.rhs s.rows f.old) symmetric sweeps (part v.x s.rows f.old)) f.old f.new }
{
    for _i in 0..sweeps {
        gauss_seidel::gauss_seidel(w, f, s, v.rhs, v.x, v.work, symmetric);
    }
}

// The sweeps of a smoother: all DIC sweeps first, then as many of Gauss-Seidel.
fn sweep(
    w: &[u32],
    f: &mut [f64],
    s: SymmetricMatrix,
    dic: usize,
    kind: MultigridSmoother,
    v: LevelScratch,
    sweeps: u64,
)
    requires { SmoothOk w.now (length f.old) s dic v.rhs v.x v.work v.correction }
    ensures { Smoothed s.rows v.x v.work v.correction (swept_of (kernel_at s w.now f.old) (part dic s.rows f.old) (part v.rhs s.rows f.old) kind sweeps (part v.x s.rows f.old)) f.old f.new }
{
    let symmetric = is_symmetric(kind);
    if options::needs_dic(kind) {
        dic_sweeps(w, f, s, dic, v, sweeps);
    }
    gauss_seidels(w, f, s, dic, v, symmetric, sweeps);
}

// Smooths x, and asks question 25 of it. No sweep, no question. What work and correction held is never read.
pub fn smooth(
    w: &[u32],
    f: &mut [f64],
    s: SymmetricMatrix,
    dic: usize,
    kind: MultigridSmoother,
    v: LevelScratch,
    sweeps: u64,
) -> Result<(), Refusal>
    requires { SmoothOk w.now (length f.old) s dic v.rhs v.x v.work v.correction }
    ensures { SmoothDone s.rows v.x v.work v.correction (smooth_of (kernel_at s w.now f.old) (part dic s.rows f.old) (part v.rhs s.rows f.old) kind sweeps (part v.x s.rows f.old)) (swept_of (kernel_at s w.now f.old) (part dic s.rows f.old) (part v.rhs s.rows f.old) kind sweeps (part v.x s.rows f.old)) f.old f.new result }
{
    if sweeps == 0 {
        return Ok(());
    }
    sweep(w, f, s, dic, kind, v, sweeps);
    if vector::all_finite(f, s.rows, v.x) {
        Ok(())
    } else {
        Err(refusal::BAD_SMOOTHER_OUTPUT)
    }
}
