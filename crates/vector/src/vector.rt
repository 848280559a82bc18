// vector.rs: dot product and norm over regions of the store.
ghost use Rattle.std.specs.Prelude.{◌≡◌, ◌+◌, ◌*◌, ◌≤◌, length};
ghost use Rattle.store.specs.Region.{part};
ghost use Rattle.float.specs.Float.{neg_zero};
ghost use Rattle.store.specs.Loop.{for};
ghost use Rattle.vector.specs.Dot.{block_of, dot_of, product_of, norm_of};
ghost use Rattle.vector.specs.Turns.{blocks_of, block_turn};

// A sum or a root, where it is finite.
fn finite(x: f64) -> Option<f64>
    ensures { result ≡ product_of x }
{
    if float::is_finite(x) { Some(x) } else { None }
}

// The products from lo to hi, added up.
// A for, and no `sum` of an iterator: what the sum starts from and its order are promised, bit for bit.
fn dot_block(u: &[f64], v: &[f64], lo: usize, hi: usize) -> f64
    requires u_has_hi { hi ≤ length u.now }
    requires v_has_hi { hi ≤ length v.now }
    ensures { result ≡ block_of u.now v.now lo hi }
{
    let mut sum = -0.0;
    for k in lo..hi {
        sum += u[k] * v[k];
    }
    sum
}

// Two block sums. A struct, since `blocks_of` names its fields.
#[derive(Clone, Copy)]
struct Sums {
    first: f64,
    second: f64,
}

// The block from lo on and the next, side by side: each sum is a chain of additions, and neither waits for the other.
fn dot_blocks(u: &[f64], v: &[f64], lo: usize) -> Sums
    requires u_has_both { lo + 2048 ≤ length u.now }
    requires v_has_both { lo + 2048 ≤ length v.now }
    ensures { result ≡ blocks_of u.now v.now lo }
{
    let hi = lo + 1024;
    let mut first = -0.0;
    let mut second = -0.0;
    for k in lo..hi {
        let l = k + 1024;
        first += u[k] * v[k];
        second += u[l] * v[l];
    }
    Sums { first, second }
}

// The sums of the first 2 * pairs blocks, which are full, added up.
fn dot_pairs(u: &[f64], v: &[f64], pairs: usize) -> f64
    requires same_length { length v.now ≡ length u.now }
    requires pairs_bound { 2048 * pairs ≤ length u.now }
    ensures { result ≡ for (block_turn (length u.now) u.now v.now) 0 (2 * pairs) neg_zero }
{
    let mut sum = -0.0;
    for p in 0..pairs {
        let sums = dot_blocks(u, v, 2048 * p);
        sum = sum + sums.first + sums.second;
    }
    sum
}

// The block sums, added up.
fn dot_sum(u: &[f64], v: &[f64]) -> f64
    requires { length v.now ≡ length u.now }
    ensures { result ≡ dot_of (length u.now) u.now v.now }
{
    let n = u.len();
    let blocks = n.div_ceil(1024);
    let pairs = n / 2048;
    let mut sum = dot_pairs(u, v, pairs);
    for i in 2 * pairs..blocks {
        let lo = i * 1024;
        let hi = (lo + 1024).min(n);
        sum += dot_block(u, v, lo, hi);
    }
    sum
}

// The dot product of the n elements at a by those at b.
pub fn dot(f: &[f64], a: usize, b: usize, n: usize) -> Option<f64>
    requires n_in_bounds { a + n ≤ length f.now }
    requires n_in_bounds_2 { b + n ≤ length f.now }
    ensures { result ≡ product_of (dot_of n (part a n f.now) (part b n f.now)) }
{
    finite(dot_sum(&f[a..a + n], &f[b..b + n]))
}

// The root of the dot product of the n elements at a by themselves.
pub fn norm_l2(f: &[f64], a: usize, n: usize) -> Option<f64>
    requires { a + n ≤ length f.now }
    ensures { result ≡ norm_of n (part a n f.now) }
{
    let squared = dot(f, a, a, n)?;
    finite(float::sqrt(squared))
}
