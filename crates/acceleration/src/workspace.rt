// acceleration.rs: where the directions of a solve and their images stand in the store.
ghost use Rattle.std.specs.Prelude.{◌≡◌, ◌+◌, ◌*◌, ◌≤◌};
ghost use Rattle.acceleration.specs.Workspace.{pair_of};

// Where a direction p and its image A * p stand.
#[derive(Clone, Copy)]
pub struct PairPlace {
    pub direction: usize,
    pub image: usize,
}

// Where at most `krylov` stored pairs of `rows` elements stand in the lent store, since the solver has no heap: their directions one
// after another, and so their images. How many are stored is no field but an argument `used`, which each correction answers anew.
#[derive(Clone, Copy)]
pub struct GcrWorkspace {
    pub rows: usize,
    pub krylov: usize,
    pub directions: usize,
    pub images: usize,
}

impl GcrWorkspace {
    // Where the pair stands that has so many before it.
    pub fn pair(self, before: usize) -> PairPlace
        requires directions_fit { self.directions + before * self.rows ≤ 18446744073709551615 }
        requires images_fit { self.images + before * self.rows ≤ 18446744073709551615 }
        ensures { result ≡ pair_of self before }
    {
        let skipped = before * self.rows;
        PairPlace {
            direction: self.directions + skipped,
            image: self.images + skipped,
        }
    }
}
