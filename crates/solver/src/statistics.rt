// cycle.rs: the statistics of a level, one record of a lent slice, and its counters, each of which stops at 2^64 - 1.
ghost use Rattle.std.specs.Prelude.{◌≡◌, ◌+◌, ◌*◌, ◌<◌};
ghost use Rattle.solver.specs.Statistics.{unvisited, counted_at};
ghost use Rattle.solver.specs.Updates.{add_visits, add_pre_sweeps, add_post_sweeps, add_coarse_iterations};

// Rows of the level; how often a cycle came to it; the sweeps made on it before the correction of a visit and after it, which the Rust counts
// in one number; the iterations of its coarse solver.
#[repr(C)]
#[derive(Clone, Copy)]
pub struct MultigridLevelStatistics {
    pub cells: u64,
    pub visits: u64,
    pub pre_sweeps: u64,
    pub post_sweeps: u64,
    pub coarse_iterations: u64,
}

impl MultigridLevelStatistics {
    // A level of so many rows that nobody has visited.
    pub fn unvisited(cells: u64) -> MultigridLevelStatistics
        ensures { result ≡ unvisited cells }
    {
        MultigridLevelStatistics {
            cells,
            visits: 0,
            pre_sweeps: 0,
            post_sweeps: 0,
            coarse_iterations: 0,
        }
    }

    // A method for each of the four counters, since no argument can name a field.

    // The record with so many visits more.
    pub fn add_visits(self, more: u64) -> MultigridLevelStatistics
        ensures { result ≡ add_visits more self }
    {
        MultigridLevelStatistics {
            visits: float::saturating_add(self.visits, more),
            ..self
        }
    }

    // The record with so many sweeps before the correction more.
    pub fn add_pre_sweeps(self, more: u64) -> MultigridLevelStatistics
        ensures { result ≡ add_pre_sweeps more self }
    {
        MultigridLevelStatistics {
            pre_sweeps: float::saturating_add(self.pre_sweeps, more),
            ..self
        }
    }

    // The record with so many sweeps after it more.
    pub fn add_post_sweeps(self, more: u64) -> MultigridLevelStatistics
        ensures { result ≡ add_post_sweeps more self }
    {
        MultigridLevelStatistics {
            post_sweeps: float::saturating_add(self.post_sweeps, more),
            ..self
        }
    }

    // The record with so many iterations of the coarse solver more.
    pub fn add_coarse_iterations(self, more: u64) -> MultigridLevelStatistics
        ensures { result ≡ add_coarse_iterations more self }
    {
        MultigridLevelStatistics {
            coarse_iterations: float::saturating_add(self.coarse_iterations, more),
            ..self
        }
    }
}

// The record of the level at that depth, with what a solve counted there.
pub fn count_at(
    r: MultigridLevelStatistics,
    counts: [u64; 512],
    depth: usize,
) -> MultigridLevelStatistics
    requires { depth < 128 }
    ensures { result ≡ counted_at counts depth r }
{
    let at = 4 * depth;
    let visited = r.add_visits(counts[at]);
    let before = visited.add_pre_sweeps(counts[at + 1]);
    let after = before.add_post_sweeps(counts[at + 2]);
    after.add_coarse_iterations(counts[at + 3])
}
