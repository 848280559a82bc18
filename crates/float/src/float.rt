// The methods of f64 that the solver calls, as functions. No public one asks anything of its arguments.
ghost use Rattle.std.specs.Prelude.{◌≡◌};
ghost use Rattle.std.specs.Float.{binary64};
ghost use Rattle.std.specs.Float.Ieee.{to_bits, of_bits};
ghost use Rattle.float.specs.Float.{is_finite, is_positive, abs_of, max_num, square_of};

// x is neither a NaN nor an infinity. Tried: the library's `is_finite`, which subtracts first; a pass over a vector took a tenth longer.
pub fn is_finite(x: f64) -> bool
    ensures { result ≡ is_finite x }
{
    (x > f64::NEG_INFINITY) & (x < f64::INFINITY)
}

// x is finite and above zero.
pub fn is_positive(x: f64) -> bool
    ensures { result ≡ is_positive x }
{
    is_finite(x) & (x > 0.0)
}

// The bits of x; for a NaN, which the library's `to_bits` does not take, 0x7ff8_0000_0000_0000.
pub fn to_bits(x: f64) -> u64
    ensures { result ≡ to_bits binary64 x }
{
    if x.is_nan() {
        0x7ff8_0000_0000_0000
    } else {
        x.to_bits()
    }
}

// The float of the bits b; a NaN for the bits of any NaN, which the library's `from_bits` does not take.
pub fn of_bits(b: u64) -> f64
    ensures { result ≡ of_bits binary64 b }
{
    if b % 0x8000_0000_0000_0000 > 0x7ff0_0000_0000_0000 {
        f64::NAN
    } else {
        f64::from_bits(b)
    }
}

// x with its sign bit cleared. A NaN has no sign here, and is returned as it is. Tried: the library's `abs`, which compares twice; a sum of
// sizes took a twentieth longer.
pub fn abs(x: f64) -> f64
    ensures { result ≡ abs_of x }
{
    if x.is_nan() {
        x
    } else {
        f64::from_bits(x.to_bits() & 0x7fff_ffff_ffff_ffff)
    }
}

// The larger of a and b, a number where the other is a NaN. Of equal numbers the first, so that of −0 and +0 it is a: the
// library's `max` leaves open which of the two it is.
pub fn max_num(a: f64, b: f64) -> f64
    ensures { result ≡ max_num a b }
{
    if a.is_nan() | (a < b) { b } else { a }
}

// `x.powi(2)`: one product, where the library's `powi` has three.
pub fn square(x: f64) -> f64
    ensures { result ≡ square_of x }
{
    x * x
}
