// The functions of `vector`.
ghost use Rattle.std.specs.Prelude.{◌≡◌, ◌+◌, ◌≤◌, length};
ghost use Rattle.store.specs.Region.{part};
ghost use Rattle.vector.specs.Dot.{dot_of, product_of, norm_of};
ghost use Rattle.vector.specs.Finite.{all_finite};
ghost use Rattle.meshprobe_c.specs.Mesh.{flag, flag_of, written_of};

use meshprobe::{number, tell};

#[unsafe(no_mangle)]
pub extern "C" fn probe_dot(f: &[f64], a: usize, b: usize, n: usize, out: &mut [f64]) -> u8
    requires n_in_bounds { a + n ≤ length f.now }
    requires n_in_bounds_2 { b + n ≤ length f.now }
    requires in_bounds { 1 ≤ length out.old }
    ensures value { result ≡ flag_of (product_of (dot_of n (part a n f.now) (part b n f.now))) }
    ensures out_after { out.new ≡ written_of (product_of (dot_of n (part a n f.now) (part b n f.now))) out.old }
{
    tell(vector::dot(f, a, b, n), out)
}

#[unsafe(no_mangle)]
pub extern "C" fn probe_norm_l2(f: &[f64], a: usize, n: usize, out: &mut [f64]) -> u8
    requires n_in_bounds { a + n ≤ length f.now }
    requires in_bounds { 1 ≤ length out.old }
    ensures value { result ≡ flag_of (norm_of n (part a n f.now)) }
    ensures out_after { out.new ≡ written_of (norm_of n (part a n f.now)) out.old }
{
    tell(vector::norm_l2(f, a, n), out)
}

#[unsafe(no_mangle)]
pub extern "C" fn probe_all_finite(f: &[f64], n: usize, x: usize) -> u8
    requires { x + n ≤ length f.now }
    ensures { result ≡ flag (all_finite n (part x n f.now)) }
{
    number(vector::all_finite(f, n, x))
}
