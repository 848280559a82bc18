// What a field says: digits of any length, and a value with its sign, point and power of ten.
ghost use Rattle.std.specs.Prelude.{◌≡◌, true, ◌+◌, ◌-◌, ◌*◌, ◌<◌, ◌≤◌, ◌^◌, min, eqb, length, get_or};
ghost use Rattle.decimal_text.specs.Field.{
  place_of,
  sign_of,
  starts_minus,
  all_digits,
  number_of,
  digits_from,
  number_in,
  fraction_in,
  mantissa_in,
  exponent_in,
  power_in,
  scaled_of,
  shifted_in,
  head_of,
  has_power,
  power_of,
  form_of,
  value_in,
};
ghost use Rattle.decimal_text.specs.Contract.{DigitsTo, LastDigit};

use decimal::read_signed;

// Where the first byte that is `a` or `b` stands; the length where none is.
pub fn find_either(s: &[u8], a: u8, b: u8) -> usize
    ensures { result ≡ place_of a b s.now }
{
    // Not `position` with `unwrap_or`, with which the proof didn't close.
    for (i, &x) in s.iter().enumerate() {
        if (x == a) | (x == b) {
            return i;
        }
    }
    s.len()
}

// The first byte; 0 where there is none.
fn first_byte(s: &[u8]) -> u8
    ensures { result ≡ get_or s.now 0 0 }
{
    s.first().copied().unwrap_or(0)
}

// 1 where the first byte is a sign, else 0.
fn sign_length(s: &[u8]) -> usize
    ensures { result ≡ sign_of s.now }
{
    let b = first_byte(s);
    usize::from(b == b'+' || b == b'-')
}

// Whether the first byte is a minus sign.
fn starts_minus(s: &[u8]) -> bool
    ensures { result ≡ starts_minus s.now }
{
    first_byte(s) == b'-'
}

// A number with one digit more.
fn appended(number: u64, digit: u64) -> u64
    requires { digit ≤ 9 }
    ensures { result ≡ min (number * 10 + digit) (10 ^ 19) }
{
    if number < 1_000_000_000_000_000_000 {
        number * 10 + digit
    } else {
        10_000_000_000_000_000_000
    }
}

// The number that `n` and then the digits of `s` write, up to 10^19, which stands for all that are not below it; none where a byte is no digit.
fn digits_from(n: u64, s: &[u8]) -> Option<u64>
    requires { n ≤ 10 ^ 19 }
    ensures { result ≡ digits_from n s.now }
{
    let mut number = n;
    for &b in s {
        if !b.is_ascii_digit() {
            return None;
        }
        number = appended(number, u64::from(b - b'0'));
    }
    Some(number)
}

// A digit string of any length, with leading zeros or without, as such a number.
pub fn number_in(s: &[u8]) -> Option<u64>
    ensures { result ≡ number_in s.now }
{
    if s.is_empty() {
        return None;
    }
    digits_from(0, s)
}

// The digits after the point, behind `whole` digits that write n: both as such a number, and how many stand after the point.
fn fraction_in(n: u64, whole: usize, s: &[u8]) -> Option<(u64, u64)>
    requires { n ≤ 10 ^ 19 }
    ensures { result ≡ fraction_in n whole s.now }
{
    if whole == 0 && s.is_empty() {
        return None;
    }
    let m = digits_from(n, s)?;
    Some((m, s.len() as u64))
}

// The digits before and after a point or none.
fn mantissa_in(s: &[u8]) -> Option<(u64, u64)>
    ensures { result ≡ mantissa_in s.now }
{
    let point = find_either(s, b'.', b'.');
    let after = s.len().min(point + 1);
    let n = digits_from(0, &s[..point])?;
    fraction_in(n, point, &s[after..])
}

// A sign or none, and digits: whether the power of ten is below zero, and its size.
fn exponent_in(s: &[u8]) -> Option<(bool, u64)>
    ensures { result ≡ exponent_in s.now }
{
    let sign = sign_length(s);
    let power = number_in(&s[sign..])?;
    Some((starts_minus(s), power))
}

// m * 10^(up - down) after its sign, if m has at most 15 digits and the power of ten is from -22 to 22.
fn scaled(minus: bool, m: u64, up: u64, down: u64) -> Option<f64>
    ensures { result ≡ scaled_of minus m up down }
{
    let power = up.abs_diff(down);
    if m >= 1_000_000_000_000_000 || power > 22 {
        return None;
    }
    Some(read_signed(minus, m, up < down, power))
}

// m with so many of its digits after the point, times a power of ten.
fn shifted(minus: bool, m: u64, fraction: u64, e: Option<(bool, u64)>) -> Option<f64>
    requires { fraction < 2 ^ 63 }
    ensures { result ≡ shifted_in minus m fraction e }
{
    let (negative, power) = e?;
    if !negative {
        return scaled(minus, m, power, fraction);
    }
    if power > 22 {
        return None;
    }
    scaled(minus, m, 0, fraction + power)
}

// A power of ten behind an e or E that stands at `mark`; none where that is the end.
fn power_at(s: &[u8], mark: usize) -> Option<(bool, u64)>
    ensures { result ≡ power_in s.now mark }
{
    if mark < s.len() {
        exponent_in(&s[mark + 1..])
    } else {
        Some((false, 0))
    }
}

// What stands after the sign: digits with a point or none, and a power of ten or none.
fn unsigned_value(minus: bool, s: &[u8]) -> Option<f64>
    ensures { result ≡ form_of minus (head_of s.now) (has_power s.now) (power_of s.now) }
{
    let mark = find_either(s, b'e', b'E');
    let (m, fraction) = mantissa_in(&s[..mark])?;
    shifted(minus, m, fraction, power_at(s, mark))
}

// The value of a field, if it is a number of at most 15 digits with a power of ten from -22 to 22.
pub fn value_in(s: &[u8]) -> Option<f64>
    ensures { result ≡ value_in s.now }
{
    let sign = sign_length(s);
    let minus = starts_minus(s);
    unsigned_value(minus, &s[sign..])
}

// The last of the first n digits; 0 where there is none.
fn last_digit(s: &[u8], n: usize) -> u8
    requires { DigitsTo n s.now }
    ensures { LastDigit n s.now result }
{
    if n == 0 { 0 } else { s[n - 1] - b'0' }
}

// Whether two digit strings write the same number, whatever their length and their leading zeros: digit by digit, from the last. No `==` of
// the two fields, which asks for the same digits.
pub fn same_number(a: &[u8], b: &[u8]) -> bool
    requires { (all_digits a.now ≡ true) × (all_digits b.now ≡ true) }
    ensures { result ≡ eqb (number_of a.now) (number_of b.now) }
{
    let longer = a.len().max(b.len());
    for k in 0..longer {
        let d = last_digit(a, a.len().saturating_sub(k));
        let e = last_digit(b, b.len().saturating_sub(k));
        if d != e {
            return false;
        }
    }
    true
}
