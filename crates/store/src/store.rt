// Small functions over lent stores: indices, fills and copies. The laws of loops and regions that every other crate cites are
// in proofs/.
ghost use Rattle.std.specs.Prelude.{◌≡◌, ◌+◌, ◌<◌, ◌≤◌, length};
ghost use Rattle.std.specs.Float.{binary64};
ghost use Rattle.std.specs.Float.Ieee.{of_bits};
ghost use Rattle.store.specs.Region.{idx, part, Wrote, CopyOk};
ghost use Rattle.store.specs.Vector.{filled};

// A word as an index: as in Rust, there is no `From<u32>` for usize.
pub fn wide(x: u32) -> usize
    ensures { result ≡ x }
{
    x as usize
}

// The index that stands at base + k, of which the caller knows that it is below n: it hands the bound on to later needs.
pub fn index_at(w: &[u32], base: usize, k: usize, n: usize) -> usize
    requires k_in_bounds { base + k < length w.now }
    requires k_bound { idx w.now (base + k) < n }
    ensures value { result ≡ idx w.now (base + k) }
    ensures upper_bound { result < n }
{
    wide(w[base + k])
}

// n times v, at `to`.
// A for: the slice's own `fill` clones v, and of a type parameter it is not known that a clone succeeds.
pub fn fill<T: Copy>(s: &mut [T], to: usize, n: usize, v: T)
    requires { to + n ≤ length s.old }
    ensures { Wrote to n (filled n v) s.old s.new }
{
    for k in 0..n {
        s[to + k] = v;
    }
}

// The n elements at `from`, copied to `to`. A for, here and below: the library's `copy_within` and `copy_from_slice` need the C library's memmove,
// and the archive for C needs its memcpy and memset alone.
pub fn copy<T: Copy>(s: &mut [T], n: usize, from: usize, to: usize)
    requires { CopyOk (length s.old) n from to }
    ensures { Wrote to n (part from n s.old) s.old s.new }
{
    for k in 0..n {
        s[to + k] = s[from + k];
    }
}

// The elements of another slice, copied to `to`.
pub fn load<T: Copy>(s: &mut [T], from: &[T], to: usize)
    requires { to + length from.now ≤ length s.old }
    ensures { Wrote to (length from.now) from.now s.old s.new }
{
    for (k, &x) in from.iter().enumerate() {
        s[to + k] = x;
    }
}

// Every float zero. Its twin of words stays beside it, since the zeros of the two types differ: one promises the bits 0, one the number.
pub fn zero_floats(f: &mut [f64])
    ensures { f.new ≡ filled (length f.old) (of_bits binary64 0) }
{
    let n = f.len();
    fill(f, 0, n, 0.0);
}

// Every word zero.
pub fn zero_words(w: &mut [u32])
    ensures { w.new ≡ filled (length w.old) 0 }
{
    let n = w.len();
    fill(w, 0, n, 0);
}
