// Replays a list of square roots through `float::sqrt`, and writes how many there are and how many differ.
//
// `stdin` has a line for each: the bits of an argument, then those of its root, 16 hexadecimal digits each. The roots
// were computed in whole numbers of any length (Python's `math.isqrt`, then rounding to 53 digits, ties to even), and
// agree with the machine's own square root. First come the three roots that are also proved below; then special values
// and boundaries; subnormals with each count of leading zeros; squares; 110 arguments whose roots are nearest of all to
// half-way between two f64 (E with r * r = E * 2^54 + c, for an odd r of 54 digits and the smallest c); random values.
#![tactic(auto)]

ghost use Rattle.std.specs.Prelude.{◌≡◌, ◌+◌, ◌/◌, ◌≤◌, length};
ghost use Rattle.roots.specs.Replay.{digit_of, word_of, differs_of, differences_of};

use std::io;

// The value of a hexadecimal digit in lower case.
fn digit(c: u8) -> u64
    ensures { result ≡ digit_of c }
{
    let code = u64::from(c);
    (code % 16 + code / 64 * 9) % 16
}

// The number that the 16 digits from `at` on write.
fn word(s: &[u8], at: usize) -> u64
    requires { at + 16 ≤ length s.now }
    ensures { result ≡ word_of 16 at s.now }
{
    let mut value = 0;
    for &c in &s[at..at + 16] {
        value = value * 16 + digit(c);
    }
    value
}

// 1 where the root of the f64 with the bits b has other bits than e, else 0.
fn differs(b: u64, e: u64) -> u64
    ensures { result ≡ differs_of b e }
{
    u64::from(float::to_bits(float::sqrt(float::of_bits(b))) != e)
}

// How many lines differ.
fn differences(s: &[u8]) -> u64
    ensures { result ≡ differences_of (length s.now / 34) s.now }
{
    let mut count = 0;
    for line in 0..s.len() / 34 {
        let at = line * 34;
        count += differs(word(s, at), word(s, at + 17));
    }
    count
}

// The roots of 2, of the smallest f64 above zero and of −0: proved as well as run.
fn worked() {
    check::expect(float::to_bits(float::sqrt(2.0)) == 0x3ff6_a09e_667f_3bcd);
    check::expect(float::to_bits(float::sqrt(float::of_bits(1))) == 0x1e60_0000_0000_0000);
    check::expect(float::to_bits(float::sqrt(-0.0)) == 0x8000_0000_0000_0000);
}

fn main(rt: HostRuntime) -> io::Result<()> {
    worked();
    let mut text = [0u8; 65536];
    let n = terminal::read_full(&rt, &mut text)?;
    let count = differences(&text[..n]);
    println!(rt; "roots {} differences {count}", n / 34)
}
