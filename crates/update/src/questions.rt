// What `update_values` of mod.rs asks of its arrays before it writes: question 31, that they have the pattern of the finest level, and
// question 10.
ghost use Rattle.std.specs.Prelude.{◌≡◌, ◌+◌, ◌≤◌, eqb, length};
ghost use Rattle.refusal.specs.Outcome.{verdict_of};
ghost use Rattle.store.specs.Region.{idx, part};
ghost use Rattle.store.specs.Vector.{each};
ghost use Rattle.update_levels.specs.Update.{same_list, same_pattern, empty_pattern};
ghost use Rattle.update_levels.specs.StandingContract.{bare_at};
ghost use Rattle.update.specs.Arrays.{empty_asked, PatternOk, AskOk, Asked};

use layout::Place;
use refusal::Refusal;

// The arrays that an update is called with: those of a matrix in compressed rows, of as many rows as the hierarchy's finest level.
#[derive(Clone, Copy)]
pub struct Lent<'a> {
    pub offsets: &'a [u32],
    pub columns: &'a [u32],
    pub values: &'a [f64],
}

// Whether the words from `from` on are those of v. No branch leaves the loop, so that it takes several words at once; and no `==` of slices, which
// calls the C library's memcmp: the archive for C needs its memcpy and memset alone.
fn equal_words(w: &[u32], from: usize, v: &[u32]) -> bool
    requires { from + length v.now ≤ length w.now }
    ensures { result ≡ each (λ k. eqb (idx v.now k) (idx w.now (from + k))) (length v.now) }
{
    let mut ok = true;
    for (k, &word) in v.iter().enumerate() {
        ok = ok & (word == w[from + k]);
    }
    ok
}

// Whether v is the n words from `from` on.
fn same_words(w: &[u32], from: usize, n: usize, v: &[u32]) -> bool
    requires { from + n ≤ length w.now }
    ensures { result ≡ same_list v.now (part from n w.now) }
{
    if v.len() != n {
        return false;
    }
    equal_words(w, from, v)
}

// Question 31.
fn same_pattern(w: &[u32], p: Place, x: Lent) -> bool
    requires { PatternOk w.now p }
    ensures { result ≡ same_pattern (bare_at w.now p) x.entry.offsets.now x.entry.columns.now x.entry.values.now }
{
    same_words(w, p.offsets, p.rows + 1, x.offsets)
        & same_words(w, p.columns, p.entries, x.columns)
        & (x.values.len() == x.columns.len())
}

// Question 31 of a matrix of no rows: the one offset, 0, no columns and no values.
fn empty_pattern(x: Lent) -> bool
    ensures { result ≡ empty_pattern x.entry.offsets.now x.entry.columns.now x.entry.values.now }
{
    if x.offsets.len() != 1 {
        return false;
    }
    (x.offsets[0] == 0) & x.columns.is_empty() & x.values.is_empty()
}

// The same as an answer.
pub fn asked_empty(x: Lent) -> Result<(), Refusal>
    ensures { result ≡ verdict_of (empty_asked x.entry.offsets.now x.entry.columns.now x.entry.values.now) }
{
    if empty_pattern(x) {
        Ok(())
    } else {
        Err(refusal::OTHER_PATTERN)
    }
}

// Questions 31 and 10. The values that 10 compares are the coefficients of the finest level: they are taken to its place in the shadow,
// which starts at `image`.
pub fn asked(w: &[u32], f: &mut [f64], x: Lent, image: usize) -> Result<(), Refusal>
    requires { AskOk w.now (length f.old) image }
    ensures { Asked w.now f.old f.new x.entry.offsets.now x.entry.columns.now x.entry.values.now image result }
{
    let p = layout::place_at(w, 0, image);
    if !same_pattern(w, p, x) {
        return Err(refusal::OTHER_PATTERN);
    }
    if !coefficients::take_faces(w, x.values, f, p.faces, p.uppers, p.lowers, p.coefficients) {
        return Err(refusal::NOT_SYMMETRIC);
    }
    Ok(())
}
