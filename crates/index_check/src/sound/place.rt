// One level with a sound head: its words and its coupled rows.
ghost use Rattle.std.specs.Prelude.{◌≡◌, ◌<◌, length};
ghost use Rattle.layout.specs.Layout.{coupled_at};
ghost use Rattle.index_check.specs.SoundContract.{WordAt, HeadOk};

// The word at i as an index, which is below 2^32.
pub fn word_at(w: &[u32], i: usize) -> usize
    requires { i < length w.now }
    ensures { WordAt w.now i result }
{
    store::wide(w[i])
}

// The coupled rows of the level at a; none but on the last.
pub fn coupled_at(w: &[u32], a: usize) -> usize
    requires { HeadOk w.now a }
    ensures { result ≡ coupled_at w.now a }
{
    if w[a + 1] == 1 {
        return word_at(w, a + 2);
    }
    0
}
