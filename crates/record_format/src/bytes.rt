// Numbers that stand in bytes, the least byte first.
ghost use Rattle.std.specs.Prelude.{◌≡◌, [], ◌∷◌, ◌*◌, ◌≤◌, length};
ghost use Rattle.store.specs.Region.{Wrote};
ghost use Rattle.record_format.specs.Bytes.{u64_at, float_at, words_at, floats_at, bytes4, bytes8, float_bytes, flat};
ghost use Rattle.record_format.specs.Steps.{ByteIs, WordIs, RoomFor, SpaceFor};

// The byte at a place; 0 past the end, as in definitions.
pub fn byte_at(b: &[u8], at: usize) -> u64
    ensures { ByteIs b.now at result }
{
    b.get(at).map_or(0, |&byte| u64::from(byte))
}

// The u32 whose four bytes start at a place.
pub fn u32_at(b: &[u8], at: usize) -> u64
    requires { at ≤ 1048576 }
    ensures { WordIs b.now at result }
{
    let first = byte_at(b, at);
    let second = byte_at(b, at + 1);
    let third = byte_at(b, at + 2);
    let fourth = byte_at(b, at + 3);
    first + 256 * second + 65536 * third + 16777216 * fourth
}

// The u64 whose eight bytes start at a place.
pub fn u64_at(b: &[u8], at: usize) -> u64
    requires { at ≤ 1000000 }
    ensures { result ≡ u64_at b.now at }
{
    let low = u32_at(b, at);
    let high = u32_at(b, at + 4);
    low + 4294967296 * high
}

// The float whose bits start at a place.
pub fn float_at(b: &[u8], at: usize) -> f64
    requires { at ≤ 1000000 }
    ensures { result ≡ float_at b.now at }
{
    float::of_bits(u64_at(b, at))
}

// n numbers of four bytes each, which start at a place, to the start of a slice. This loop and those below are written out for each
// kind of number: of a common one the width, the bytes and the call would be parameters, and it would be longer than they are. `n` stands
// beside `out`, since an array that is read into is as long as the largest record and keeps what stands behind the n numbers (`Wrote`).
pub fn read_words(b: &[u8], at: usize, n: usize, out: &mut [u32])
    requires { RoomFor (length out.old) at n }
    ensures { Wrote 0 n (words_at b.now at n) out.old out.new }
{
    for k in 0..n {
        out[k] = u32_at(b, at + 4 * k) as u32;
    }
}

// n floats, which start at a place, to the start of a slice.
pub fn read_floats(b: &[u8], at: usize, n: usize, out: &mut [f64])
    requires { RoomFor (length out.old) at n }
    ensures { Wrote 0 n (floats_at b.now at n) out.old out.new }
{
    for k in 0..n {
        out[k] = float_at(b, at + 8 * k);
    }
}

// A byte at a place.
pub fn put_byte(out: &mut [u8], at: usize, v: u8)
    requires { SpaceFor at 1 (length out.old) }
    ensures { Wrote at 1 (v ∷ []) out.old out.new }
{
    out[at] = v;
}

// The four bytes of a u32, from a place on.
pub fn put_u32(out: &mut [u8], at: usize, v: u64)
    requires { SpaceFor at 4 (length out.old) }
    ensures { Wrote at 4 (bytes4 v) out.old out.new }
{
    put_byte(out, at, (v % 256) as u8);
    put_byte(out, at + 1, (v / 256 % 256) as u8);
    put_byte(out, at + 2, (v / 65536 % 256) as u8);
    put_byte(out, at + 3, (v / 16777216 % 256) as u8);
}

// The eight bytes of a u64, from a place on.
pub fn put_u64(out: &mut [u8], at: usize, v: u64)
    requires { SpaceFor at 8 (length out.old) }
    ensures { Wrote at 8 (bytes8 v) out.old out.new }
{
    put_u32(out, at, v % 4294967296);
    put_u32(out, at + 4, v / 4294967296);
}

// The bits of a float, from a place on; those of any NaN are 7ff8000000000000.
pub fn put_f64(out: &mut [u8], at: usize, x: f64)
    requires { SpaceFor at 8 (length out.old) }
    ensures { Wrote at 8 (float_bytes x) out.old out.new }
{
    put_u64(out, at, float::to_bits(x));
}

// Numbers of four bytes each, one behind another, from a place on.
pub fn write_words(out: &mut [u8], at: usize, words: &[u32])
    requires { SpaceFor at (4 * length words.now) (length out.old) }
    ensures { Wrote at (4 * length words.now) (flat bytes4 words.now) out.old out.new }
{
    for (k, &word) in words.iter().enumerate() {
        put_u32(out, at + 4 * k, u64::from(word));
    }
}

// Numbers of eight bytes each, one behind another, from a place on.
pub fn write_longs(out: &mut [u8], at: usize, longs: &[u64])
    requires { SpaceFor at (8 * length longs.now) (length out.old) }
    ensures { Wrote at (8 * length longs.now) (flat bytes8 longs.now) out.old out.new }
{
    for (k, &long) in longs.iter().enumerate() {
        put_u64(out, at + 8 * k, long);
    }
}

// Floats one behind another, from a place on.
pub fn write_floats(out: &mut [u8], at: usize, floats: &[f64])
    requires { SpaceFor at (8 * length floats.now) (length out.old) }
    ensures { Wrote at (8 * length floats.now) (flat float_bytes floats.now) out.old out.new }
{
    for (k, &value) in floats.iter().enumerate() {
        put_f64(out, at + 8 * k, value);
    }
}
