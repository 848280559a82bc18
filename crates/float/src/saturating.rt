// The saturating sum and product of u64 as functions of their own, though each is one call of the library: docs/PROMISES.md names them with what they
// promise, and the comparison with the Rust calls them. None asks anything of its arguments.
ghost use Rattle.std.specs.Prelude.{◌≡◌, ◌*◌, min};
ghost use Rattle.float.specs.Saturating.{saturating_sum};

// a + b, or the largest u64 where the sum does not fit.
pub fn saturating_add(a: u64, b: u64) -> u64
    ensures { result ≡ saturating_sum a b }
{
    a.saturating_add(b)
}

// a * b, or the largest u64 where the product does not fit.
pub fn saturating_mul(a: u64, b: u64) -> u64
    ensures { result ≡ min (a * b) 18446744073709551615 }
{
    a.saturating_mul(b)
}
