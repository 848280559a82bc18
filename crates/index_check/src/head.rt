// The head of a level: its sizes, and whether it is the last.
ghost use Rattle.std.specs.Prelude.{◌≡◌};
ghost use Rattle.index_check.specs.Sound.{head_sound, head_fits};
ghost use Rattle.index_check.specs.LevelContract.{sizes_fit};

use crate::sound;

// Whether these are the sizes of a matrix that question 1 passes.
fn sizes_fit(rows: usize, entries: usize, faces: usize, coupled: usize) -> bool
    ensures { result ≡ sizes_fit rows entries faces coupled }
{
    (rows <= 65536) & (entries <= 1048576) & (faces <= entries) & (coupled <= rows)
}

// Whether a level's sizes can be read at a, are those of a matrix that question 1 passes, and leave its words in the
// store. All is asked of what is left of the store behind a: no sum wraps.
fn head_sound(w: &[u32], a: usize) -> bool
    ensures { result ≡ head_sound w.now a }
{
    if w.len() < a {
        return false;
    }
    let left = w.len() - a;
    if left < 5 {
        return false;
    }
    let rows = sound::word_at(w, a);
    if left < 5 + 3 * rows {
        return false;
    }
    let entries = sound::word_at(w, a + 3 + rows);
    if left < 5 + 3 * rows + entries {
        return false;
    }
    let faces = sound::word_at(w, a + 3 + rows + 1 + entries + rows);
    let links = 5 + 3 * rows + entries + 3 * faces;
    if w[a + 1] == 1 {
        let coupled = sound::word_at(w, a + 2);
        return (links + coupled <= left) & sizes_fit(rows, entries, faces, coupled);
    }
    (links + rows + entries <= left) & sizes_fit(rows, entries, faces, 0)
}

// The same of a level after which so many come: the last one alone is terminal.
pub fn head_fits(w: &[u32], a: usize, more: u64) -> bool
    ensures { result ≡ head_fits more w.now a }
{
    if !head_sound(w, a) {
        return false;
    }
    if more == 0 {
        return w[a + 1] == 1;
    }
    w[a + 1] != 1
}
