// Where the floats of the levels end, and where the scratch behind them starts and ends. `LevelsOk`, that the walk went through so many levels, is a fact of
// the lent words and a number: a handle that carried it would have to borrow the words.
ghost use Rattle.std.specs.Prelude.{◌≡◌};
ghost use Rattle.layout.specs.Layout.{floats_end, image_end, image_of};
ghost use Rattle.index_check.specs.Sound.{scratch_start, cycle_start, scratch_end};
ghost use Rattle.index_check.specs.SoundContract.{FloatsOk, LevelsOk, MemoryOk, ScratchOk};

use crate::sound::place::{coupled_at, word_at};

// Where the floats end of the level whose words start at a and whose floats start at b.
fn floats_end(w: &[u32], a: usize, b: usize) -> usize
    requires { FloatsOk w.now a b }
    ensures { result ≡ floats_end w.now a b }
{
    let p = layout::place_at(w, a, b);
    p.factor + cholesky::triangle(coupled_at(w, a))
}

// Where the floats of all levels end.
fn image_end(w: &[u32], levels: u64) -> usize
    requires { LevelsOk w.now levels }
    ensures { result ≡ image_end levels w.now 0 0 }
{
    let mut a = 0;
    let mut b = 0;
    for _level in 0..levels {
        b = floats_end(w, a, b);
        a = layout::words_end(w, a);
    }
    b
}

// Where the shadow starts: behind the image, which the row sums of the finest level end.
pub fn shadow_start(w: &[u32], levels: u64) -> usize
    requires { LevelsOk w.now levels }
    ensures { result ≡ image_of levels w.now }
{
    image_end(w, levels) + word_at(w, 0)
}

// Where the scratch of a solve starts: behind the image and its shadow.
pub fn scratch_start(w: &[u32], levels: u64) -> usize
    requires { LevelsOk w.now levels }
    ensures { result ≡ scratch_start levels w.now }
{
    2 * shadow_start(w, levels)
}

// Where the scratch of its cycles starts: behind right-hand side, solution and the memory of GCR.
pub fn cycle_start(w: &[u32], levels: u64, krylov: u64) -> usize
    requires { MemoryOk w.now levels krylov }
    ensures { result ≡ cycle_start krylov levels w.now }
{
    scratch_start(w, levels) + (2 + 2 * (krylov as usize)) * word_at(w, 0)
}

// Where that ends if it starts at s: five vectors to a level.
pub fn scratch_end(w: &[u32], levels: u64, s: usize) -> usize
    requires { ScratchOk w.now levels s }
    ensures { result ≡ scratch_end levels w.now 0 s }
{
    let mut end = s;
    let mut a = 0;
    for _level in 0..levels {
        end += 5 * word_at(w, a);
        a = layout::words_end(w, a);
    }
    end
}
