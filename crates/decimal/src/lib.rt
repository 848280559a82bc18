// Decimal numbers as f64: at most 15 digits, and a power of ten from -22 to 22.
#![tactic(auto)]

ghost use Rattle.std.specs.Prelude.{◌≡◌, false, ◌<◌, ◌≤◌, ◌^◌};
ghost use Rattle.std.specs.Float.Ieee.Exact.{HasValue};
ghost use Rattle.decimal.specs.Contract.{Reached};
ghost use Rattle.decimal.specs.Decimal.{value_of, find_of, attempt_of, write_of, magnitude_of, signed_of};

const POWERS: [f64; 23] = [
    1e0, 1e1, 1e2, 1e3, 1e4, 1e5, 1e6, 1e7, 1e8, 1e9, 1e10, 1e11, 1e12, 1e13, 1e14, 1e15, 1e16,
    1e17, 1e18, 1e19, 1e20, 1e21, 1e22,
];

// A power of ten is a number whose bound stands in the contracts, and no type of its own: `read`, `find` and `read_signed` are called with
// the number that a field or a loop has, so each of them would make the type anew for the functions below it.

// 10^k, which is a f64 for each k up to 22.
fn power_of(k: u64) -> f64
    requires { k ≤ 22 }
    ensures { HasValue result false (10 ^ k) 1 }
{
    POWERS[k as usize]
}

// The f64 nearest to m * 10^power, or where `negative` to m * 10^-power: m and the power of ten are f64, so that one operation rounds once.
pub fn read(m: u64, negative: bool, power: u64) -> f64
    requires { (m < 10 ^ 15) × (power ≤ 22) }
    ensures { result ≡ value_of m negative power }
{
    let x = m as f64;
    let t = power_of(power);
    if negative { x / t } else { x * t }
}

// The first m whose number is not below v, or 10^15 where there is none: by bisection, since the rounded numbers grow with m.
fn reach(v: f64, negative: bool, power: u64) -> u64
    requires { power ≤ 22 }
    ensures { Reached v negative power result }
{
    let mut low: u64 = 0;
    let mut high: u64 = 1_000_000_000_000_000;
    // A while: the numbers that are left are halved each time, so there is no range to walk.
    while low < high {
        let middle = low + (high - low) / 2;
        if read(middle, negative, power) < v {
            low = middle + 1;
        } else {
            high = middle;
        }
    }
    low
}

// The m with which the power gives v, if there is one. Asks nothing of v: a NaN, an infinity and a number below zero have none, and -0 has 0.
pub fn find(v: f64, negative: bool, power: u64) -> Option<u64>
    requires { power ≤ 22 }
    ensures { result ≡ find_of v negative power }
{
    let m = reach(v, negative, power);
    if m < 1_000_000_000_000_000 && read(m, negative, power) == v {
        Some(m)
    } else {
        None
    }
}

// v with the power 10^power, or else 10^-power: the digits, whether the power of ten is below zero, and its size. The three stay a tuple,
// since `write_of` of the theorems has them so.
fn attempt(v: f64, power: u64) -> Option<(u64, bool, u64)>
    requires { power ≤ 22 }
    ensures { result ≡ attempt_of v power }
{
    if let Some(m) = find(v, false, power) {
        return Some((m, false, power));
    }
    let m = find(v, true, power)?;
    Some((m, true, power))
}

// v with the power nearest zero that gives it, if one from -22 to 22 does, said as by `attempt`.
pub fn write(v: f64) -> Option<(u64, bool, u64)>
    ensures { result ≡ write_of v }
{
    for power in 0..=22 {
        if let Some(written) = attempt(v, power) {
            return Some(written);
        }
    }
    None
}

// v without its minus sign, if it is below zero: what `write` takes. Not `abs`, which takes the sign of -0 and of a NaN too.
pub fn magnitude(v: f64) -> f64
    ensures { result ≡ magnitude_of v }
{
    if v < 0.0 { -v } else { v }
}

// `read` after a minus sign or none.
pub fn read_signed(minus: bool, m: u64, negative: bool, power: u64) -> f64
    requires { (m < 10 ^ 15) × (power ≤ 22) }
    ensures { result ≡ signed_of minus (value_of m negative power) }
{
    let x = read(m, negative, power);
    if minus { -x } else { x }
}
