// The square root of an f64, over whole numbers: the library's `sqrt` is the machine's instruction, whose result would be an
// assumption (docs/DECISIONS.md). The public function asks nothing of its argument.
ghost use Rattle.std.specs.Prelude.{◌≡◌, ◌+◌, ◌*◌, ◌^◌, ◌<◌, ◌≤◌};
ghost use Rattle.float.specs.Sqrt.{Root, nearest_root, sqrt_of};

// √(m * 2^54) cut to a whole number, digit by digit: each turn brings down two more digits of m * 2^54 into `rest`.
fn root(m: u64) -> u64
    requires { m < 2 ^ 54 }
    ensures { Root (m * 2 ^ 54) result }
{
    let mut root: u64 = 0;
    let mut rest: u64 = 0;
    let mut a = m << 10;
    for i in 0..54u64 {
        rest = rest * 4 + (a >> 62);
        a <<= 2;
        let step = root * 4 + 1;
        root *= 2;
        if step <= rest {
            rest -= step;
            root += 1;
        }
    }
    root
}

// The f64 nearest to √(m * 2^(n - 2098)), for an m of 53 digits: `root` of m, or of 2m where n is odd, has one digit
// more than an f64 keeps, and that one rounds. There is no tie: m * 2^54 is even, and so no odd number's square.
fn packed(m: u64, n: u64) -> f64
    requires { (2 ^ 52 ≤ m) × (m < 2 ^ 53) × (972 ≤ n) × (n < 3070) }
    ensures { result ≡ nearest_root (m * 2 ^ (n + 50)) }
{
    let even = if n % 2 == 1 { m * 2 } else { m };
    let q = (root(even) + 1) / 2;
    f64::from_bits((n / 2 - 1) * 0x10_0000_0000_0000 + q)
}

// The f64 nearest to the square root of x, ties to even.
pub fn sqrt(x: f64) -> f64
    ensures { result ≡ sqrt_of x }
{
    if x < 0.0 {
        return f64::NAN;
    }
    if !(x > 0.0) {
        // a zero keeps its sign, and a NaN is a NaN
        return x;
    }
    let bits = x.to_bits();
    let field = bits / 0x10_0000_0000_0000;
    let digits = bits % 0x10_0000_0000_0000;
    if field == 2047 {
        // an infinity
        return x;
    }
    if field == 0 {
        // a subnormal's digits are shifted up until the leading one is the 53rd
        let up = u64::from(digits.leading_zeros()) - 11;
        packed(digits << up, 1024 - up)
    } else {
        packed(0x10_0000_0000_0000 + digits, field + 1023)
    }
}
