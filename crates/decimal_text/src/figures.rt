// Writing: bytes, numbers and values one after the other into a lent slice. What goes past its end is not written, but counted, so that a caller sees
// from the last place whether there was room. The output and the place are two arguments, since `put_value`, which
// docs/ARCHITECTURE.md names, is called so.
ghost use Rattle.std.specs.Prelude.{◌≡◌, ◌∷◌, [], ◌+◌, ◌≤◌, ◌<◌, ◌^◌};
ghost use Rattle.decimal_text.specs.Figures.{figures, sign_text, power_text, number_text};
ghost use Rattle.decimal_text.specs.Contract.{Laid, PlacedValue};

// One byte.
pub fn put_byte(out: &mut [u8], at: usize, b: u8) -> usize
    requires { at < 2 ^ 63 }
    ensures { Laid (b ∷ []) at out.old out.new result }
{
    // Not `get_mut`, with which the proof didn't close.
    if at < out.len() {
        out[at] = b;
    }
    at + 1
}

// The byte of a digit.
fn digit_byte(n: u64) -> u8
    requires { n < 10 }
    ensures { result ≡ n + 48 }
{
    b'0' + n as u8
}

// A number, without a needless leading zero.
pub fn put_number(out: &mut [u8], at: usize, n: u64) -> usize
    requires { at ≤ 2 ^ 62 }
    ensures { Laid (figures n) at out.old out.new result }
{
    if n < 10 {
        return put_byte(out, at, digit_byte(n));
    }
    let next = put_number(out, at, n / 10);
    put_byte(out, next, digit_byte(n % 10))
}

// A minus, or nothing.
fn put_minus(out: &mut [u8], at: usize, minus: bool) -> usize
    requires { at < 2 ^ 63 }
    ensures { Laid (sign_text minus) at out.old out.new result }
{
    if minus {
        return put_byte(out, at, b'-');
    }
    at
}

// A power of ten; nothing where it is zero.
fn put_power(out: &mut [u8], at: usize, negative: bool, power: u64) -> usize
    requires { at ≤ 2 ^ 61 }
    ensures { Laid (power_text negative power) at out.old out.new result }
{
    if power == 0 {
        return at;
    }
    let mark = put_byte(out, at, b'e');
    let sign = put_minus(out, mark, negative);
    put_number(out, sign, power)
}

// A value's sign, digits and power.
fn put_decimal(out: &mut [u8], at: usize, minus: bool, m: u64, negative: bool, power: u64) -> usize
    requires { at ≤ 2 ^ 60 }
    ensures { Laid (number_text minus m negative power) at out.old out.new result }
{
    let sign = put_minus(out, at, minus);
    let digits = put_number(out, sign, m);
    put_power(out, digits, negative, power)
}

// A value, with the power of ten nearest zero that gives it: where the next byte goes; none where no 15 digits with a power of ten from -22 to 22 write it.
pub fn put_value(out: &mut [u8], at: usize, v: f64) -> Option<usize>
    requires { at ≤ 2 ^ 60 }
    ensures { PlacedValue v at out.old out.new result }
{
    let (m, negative, power) = decimal::write(decimal::magnitude(v))?;
    Some(put_decimal(out, at, v < 0.0, m, negative, power))
}
