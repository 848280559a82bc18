// The sums of mod.rs, which run in row order, with no blocks.
ghost use Rattle.std.specs.Prelude.{◌≡◌, ℕ, ◌<◌, Float};
ghost use Rattle.residual_norm.specs.Measure.{sum_of};

// The terms of n rows, added up from the first on: where each is what g says of its row, g's sum.
pub fn sum_rows<G: Fn(usize) -> f64>(n: usize, term: G) -> f64
    requires { (row : ℕ) → row < n → G.pre term row }
    ensures { (g : ℕ → Float) → ((row : ℕ) (r : Float) → row < n → G.post term row r → r ≡ g row) → result ≡ sum_of n g }
{
    let mut sum = -0.0;
    for row in 0..n {
        sum += term(row);
    }
    sum
}
