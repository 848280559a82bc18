// Copies between the store and the caller's vectors, kept out of line so that their frames do not stand under those of a solve.
ghost use Rattle.std.specs.Prelude.{◌≡◌, ◌+◌, ◌≤◌, length};
ghost use Rattle.store.specs.Region.{part};
ghost use Rattle.solve.specs.Copies.{EnterOk, Entered};

// The vector at `from` in the store, over the whole of x. A for: `copy_from_slice` needs the C library's memmove, and the archive for C needs
// its memcpy and memset alone.
#[inline(never)]
pub fn copy_out(x: &mut [f64], f: &[f64], from: usize)
    requires { from + length x.old ≤ length f.now }
    ensures { x.new ≡ part from (length x.old) f.now }
{
    for k in 0..x.len() {
        x[k] = f[from + k];
    }
}

// Right-hand side and start into the store, from the two arrays that C lends.
#[inline(never)]
pub fn enter(f: &mut [f64], rhs: &[f64], x: &[f64], to: usize, start: usize)
    requires { EnterOk (length f.old) (length rhs.now) (length x.now) to start }
    ensures { Entered f.old f.new rhs.now x.now to start }
{
    store::load(f, rhs, to);
    store::load(f, x, start);
}
