// The functions of `correction` and `acceleration`.
ghost use Rattle.std.specs.Prelude.{◌≤◌, length};
ghost use Rattle.store.specs.Region.{part, Wrote, CopyOk};
ghost use Rattle.correction.specs.Transfer.{RestrictOk, ProlongOk, restrict_of, prolong_of};
ghost use Rattle.correction.specs.Correction.{SubtractOk, subtract_of, add_plain_of};
ghost use Rattle.correction.specs.Scaled.{ScaledOk, add_scaled_of};
ghost use Rattle.correction.specs.Scaling.{ProductsOk, correction_factor_of, factor_of};
ghost use Rattle.acceleration.specs.Gcr.{correct_of};
ghost use Rattle.acceleration.specs.DirectionsContract.{pair_at, memory_at};
ghost use Rattle.acceleration.specs.AccelerationContract.{corrected_of, CorrectOk, CorrectedBy};
ghost use Rattle.probe.specs.Probe.{Scaled, Counted};

use acceleration::{GcrWorkspace, PairPlace};
use correction::Aggregates;
use refusal::Refusal;

#[unsafe(no_mangle)]
pub extern "C" fn probe_restrict(
    w: &[u32],
    f: &mut [f64],
    n: usize,
    count: usize,
    map: usize,
    residual: usize,
    out: usize,
)
    requires { RestrictOk w.now (length f.old) n count map residual out }
    ensures { Wrote out count
        (restrict_of count n (part map n w.now) (part residual n f.old))
        f.old f.new }
{
    let aggregates = Aggregates {
        rows: n,
        count,
        map,
    };
    correction::restrict(w, f, aggregates, residual, out);
}

#[unsafe(no_mangle)]
pub extern "C" fn probe_prolong(
    w: &[u32],
    f: &mut [f64],
    n: usize,
    count: usize,
    map: usize,
    coarse: usize,
    out: usize,
)
    requires { ProlongOk w.now (length f.old) n count map coarse out }
    ensures { Wrote out n
        (prolong_of n (part map n w.now) (part coarse count f.old))
        f.old f.new }
{
    let aggregates = Aggregates {
        rows: n,
        count,
        map,
    };
    correction::prolong(w, f, aggregates, coarse, out);
}

#[unsafe(no_mangle)]
pub extern "C" fn probe_add_prolonged(
    w: &[u32],
    f: &mut [f64],
    n: usize,
    count: usize,
    map: usize,
    coarse: usize,
    x: usize,
)
    requires { ProlongOk w.now (length f.old) n count map coarse x }
    ensures { Wrote x n
        (add_plain_of n (prolong_of n (part map n w.now) (part coarse count f.old)) (part x n f.old))
        f.old f.new }
{
    let aggregates = Aggregates {
        rows: n,
        count,
        map,
    };
    correction::add_prolonged(w, f, aggregates, coarse, x);
}

#[unsafe(no_mangle)]
pub extern "C" fn probe_subtract(f: &mut [f64], n: usize, rhs: usize, product: usize, out: usize)
    requires { SubtractOk (length f.old) n rhs product out }
    ensures { Wrote out n
        (subtract_of n (part rhs n f.old) (part product n f.old))
        f.old f.new }
{
    correction::subtract(f, n, rhs, product, out);
}

// Zero and the factor, or the number of the refusal. `counted` is its like for a count, which crosses as a u64: one function for both would
// leave each export to convert, and `Scaled` and `Counted` to be said of it.
fn scaled(factor: Result<f64, Refusal>, out: &mut [f64]) -> u64
    requires { 1 ≤ length out.old }
    ensures { Scaled factor out.old out.new result }
{
    match factor {
        Ok(value) => {
            out[0] = value;
            0
        }
        Err(refusal) => refusal.number,
    }
}

#[unsafe(no_mangle)]
pub extern "C" fn probe_correction_factor(
    f: &[f64],
    n: usize,
    correction: usize,
    residual: usize,
    product: usize,
    out: &mut [f64],
) -> u64
    requires products_ok { ProductsOk (length f.now) n correction residual product }
    requires in_bounds { 1 ≤ length out.old }
    ensures { Scaled
        (factor_of (correction_factor_of n (part correction n f.now)
        (part residual n f.now) (part product n f.now)))
        out.old out.new result }
{
    scaled(
        correction::correction_factor(f, n, correction, residual, product),
        out,
    )
}

#[unsafe(no_mangle)]
pub extern "C" fn probe_add_scaled(
    f: &mut [f64],
    n: usize,
    factor: f64,
    correction: usize,
    residual: usize,
    product: usize,
    inverse: usize,
    x: usize,
)
    requires { ScaledOk (length f.old) n correction residual product inverse x }
    ensures { Wrote x n
        (add_scaled_of n factor (part correction n f.old) (part residual n f.old)
        (part product n f.old) (part inverse n f.old) (part x n f.old))
        f.old f.new }
{
    correction::add_scaled(f, n, factor, correction, residual, product, inverse, x);
}

#[unsafe(no_mangle)]
pub extern "C" fn probe_add_plain(f: &mut [f64], n: usize, correction: usize, x: usize)
    requires { CopyOk (length f.old) n correction x }
    ensures { Wrote x n
        (add_plain_of n (part correction n f.old) (part x n f.old))
        f.old f.new }
{
    correction::add_plain(f, n, correction, x);
}

// Zero and how many pairs are stored, or the number of the refusal.
fn counted(corrected: Result<usize, Refusal>, count: &mut [u64]) -> u64
    requires { 1 ≤ length count.old }
    ensures { Counted corrected count.old count.new result }
{
    match corrected {
        Ok(used) => {
            count[0] = used as u64;
            0
        }
        Err(refusal) => refusal.number,
    }
}

#[unsafe(no_mangle)]
pub extern "C" fn probe_correct(
    f: &mut [f64],
    n: usize,
    krylov: usize,
    used: usize,
    solution: usize,
    directions: usize,
    images: usize,
    residual: usize,
    direction: usize,
    image: usize,
    count: &mut [u64],
) -> u64
    requires correct_ok { CorrectOk (length f.old) n krylov used solution directions images residual direction image }
    requires in_bounds { 1 ≤ length count.old }
    ensures counted { Counted
        (corrected_of (correct_of n krylov (memory_at used n directions images f.old)
        (pair_at n direction image f.old) (part residual n f.old) (part solution n f.old)))
        count.old count.new result }
    ensures corrected_by { CorrectedBy n krylov solution directions images direction image
        (correct_of n krylov (memory_at used n directions images f.old)
        (pair_at n direction image f.old) (part residual n f.old) (part solution n f.old))
        f.old f.new
        (corrected_of (correct_of n krylov (memory_at used n directions images f.old)
        (pair_at n direction image f.old) (part residual n f.old) (part solution n f.old))) }
{
    let workspace = GcrWorkspace {
        rows: n,
        krylov,
        directions,
        images,
    };
    let pair = PairPlace { direction, image };
    counted(
        acceleration::correct(f, workspace, used, solution, residual, pair),
        count,
    )
}
