// Single floats of a lent store, of which a caller may hold one already. `near`, `watched` and `held` are parameters and no struct: the
// functions are public, and what they promise (`Held`, `Put`) names the three.
ghost use Rattle.std.specs.Prelude.{◌≡◌, ◌<◌, length};
ghost use Rattle.store.specs.Region.{at};
ghost use Rattle.store.specs.Held.{Held, Put};

// The float at i; past the end a NaN, as in definitions.
pub fn float_at(f: &[f64], i: usize) -> f64
    ensures { result ≡ at f.now i }
{
    f.get(i).copied().unwrap_or(f64::NAN)
}

// The float at i, where the caller, if it is near, holds the one at `watched`: what was stored a moment ago is not read
// again, so that a loop need not wait for its own store.
pub fn float_near(f: &[f64], i: usize, near: bool, watched: usize, held: f64) -> f64
    requires i_in_bounds { i < length f.now }
    requires held { Held near watched f.now held }
    ensures { result ≡ at f.now i }
{
    if near & (i == watched) { held } else { f[i] }
}

// The float at i, which the caller, if it is near, holds.
pub fn held_at(f: &[f64], i: usize, near: bool, held: f64) -> f64
    requires { Held near i f.now held }
    ensures { result ≡ at f.now i }
{
    if near { held } else { float_at(f, i) }
}

// Stores v at i, and answers, if the caller is near, what then stands at `watched`, where `held` stood.
pub fn put(f: &mut [f64], i: usize, v: f64, near: bool, watched: usize, held: f64) -> f64
    requires i_in_bounds { i < length f.old }
    requires held { Held near watched f.old held }
    ensures { Put i v near watched f.old f.new result }
{
    f[i] = v;
    if near & (i == watched) { v } else { held }
}
