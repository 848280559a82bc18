// The functions of `measure`.
ghost use Rattle.std.specs.Prelude.{◌≡◌, ◌+◌, ◌≤◌, length};
ghost use Rattle.store.specs.Region.{part};
ghost use Rattle.residual_norm.specs.Measure.{measure_of};
ghost use Rattle.residual_norm.specs.Normalization.{normalization_of};
ghost use Rattle.residual_norm.specs.Contract.{NormalizationOk};
ghost use Rattle.solver.specs.Solver.{threshold_of, relative_of};
ghost use Rattle.export.specs.Flat.{residual_norm_of};
ghost use Rattle.probe.specs.Probe.{flag_of, written_of};

use export::residual_norm_of;
use meshprobe::tell;
use residual_norm::{measure, normalization};

#[unsafe(no_mangle)]
pub extern "C" fn probe_measure(
    f: &[f64],
    n: usize,
    residual: usize,
    norm: u8,
    factor: f64,
    out: &mut [f64],
) -> u8
    requires n_in_bounds { residual + n ≤ length f.now }
    requires in_bounds { 1 ≤ length out.old }
    ensures value { result ≡ flag_of (measure_of (residual_norm_of norm) n (part residual n f.now) factor) }
    ensures out_after { out.new
        ≡ written_of (measure_of (residual_norm_of norm) n (part residual n f.now) factor) out.old }
{
    tell(
        measure::measure(f, n, residual, residual_norm_of(norm as u64), factor),
        out,
    )
}

#[unsafe(no_mangle)]
pub extern "C" fn probe_normalization(
    f: &[f64],
    n: usize,
    x: usize,
    rhs: usize,
    product: usize,
    rowsums: usize,
    norm: u8,
) -> f64
    requires { NormalizationOk (length f.now) n x rhs product rowsums }
    ensures { result ≡ normalization_of (residual_norm_of norm) n (part x n f.now) (part rhs n f.now)
        (part product n f.now) (part rowsums n f.now) }
{
    normalization::normalization(
        f,
        n,
        x,
        rhs,
        product,
        rowsums,
        residual_norm_of(norm as u64),
    )
}

#[unsafe(no_mangle)]
pub extern "C" fn probe_threshold(absolute: f64, relative: f64, initial: f64) -> f64
    ensures { result ≡ threshold_of absolute relative initial }
{
    solver::threshold(absolute, relative, initial)
}

#[unsafe(no_mangle)]
pub extern "C" fn probe_relative(initial: f64, last: f64) -> f64
    ensures { result ≡ relative_of initial last }
{
    solver::relative(initial, last)
}
