// The functions of `float` and `saturating`.
ghost use Rattle.std.specs.Prelude.{◌≡◌, ◌+◌, ◌*◌, min};
ghost use Rattle.std.specs.Float.{binary64};
ghost use Rattle.std.specs.Float.Ieee.{to_bits, of_bits};
ghost use Rattle.float.specs.Float.{is_finite, abs_of, max_num, square_of};
ghost use Rattle.float.specs.Sqrt.{sqrt_of};
ghost use Rattle.meshprobe_c.specs.Mesh.{flag};

use meshprobe::number;

#[unsafe(no_mangle)]
pub extern "C" fn probe_is_finite(x: f64) -> u8
    ensures { result ≡ flag (is_finite x) }
{
    number(float::is_finite(x))
}

#[unsafe(no_mangle)]
pub extern "C" fn probe_abs(x: f64) -> f64
    ensures { result ≡ abs_of x }
{
    float::abs(x)
}

#[unsafe(no_mangle)]
pub extern "C" fn probe_max_num(a: f64, b: f64) -> f64
    ensures { result ≡ max_num a b }
{
    float::max_num(a, b)
}

#[unsafe(no_mangle)]
pub extern "C" fn probe_square(x: f64) -> f64
    ensures { result ≡ square_of x }
{
    float::square(x)
}

#[unsafe(no_mangle)]
pub extern "C" fn probe_sqrt(x: f64) -> f64
    ensures { result ≡ sqrt_of x }
{
    float::sqrt(x)
}

#[unsafe(no_mangle)]
pub extern "C" fn probe_to_bits(x: f64) -> u64
    ensures { result ≡ to_bits binary64 x }
{
    float::to_bits(x)
}

#[unsafe(no_mangle)]
pub extern "C" fn probe_of_bits(bits: u64) -> f64
    ensures { result ≡ of_bits binary64 bits }
{
    float::of_bits(bits)
}

#[unsafe(no_mangle)]
pub extern "C" fn probe_saturating_add(a: u64, b: u64) -> u64
    ensures { result ≡ min (a + b) 18446744073709551615 }
{
    float::saturating_add(a, b)
}

#[unsafe(no_mangle)]
pub extern "C" fn probe_saturating_mul(a: u64, b: u64) -> u64
    ensures { result ≡ min (a * b) 18446744073709551615 }
{
    float::saturating_mul(a, b)
}
