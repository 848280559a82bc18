// The temporaries of a build, at the ends of the stores.
ghost use Rattle.std.specs.Prelude.{◌≤◌};
ghost use Rattle.build.specs.AskingContract.{Small, Vectors, Squared, SpaceOk, Spaced};

use coarsening::Workspace;

// The floats of the vectors over the finest rows.
pub fn vectors(rows: usize, krylov: usize) -> usize
    requires { Small rows krylov }
    ensures { Vectors rows krylov result }
{
    (12 + 2 * krylov) * rows
}

// The room of the factor.
pub fn square(n: usize) -> usize
    requires { n ≤ 256 }
    ensures { Squared n result }
{
    n * n
}

// The temporaries one after the other, in the order of their fields.
pub fn workspace_at(
    words: usize,
    floats: usize,
    rows: usize,
    entries: usize,
    krylov: usize,
) -> Workspace
    requires { SpaceOk words floats rows entries krylov }
    ensures { Spaced words floats rows entries krylov result }
{
    let offsets = words - (16 * rows + 12 * entries + 64);
    let columns = offsets + rows + 1;
    let merged_offsets = columns + entries;
    let merged_columns = merged_offsets + rows + 1;
    let map = merged_columns + entries;
    let positions = map + rows;
    let coarse_offsets = positions + entries;
    let coarse_columns = coarse_offsets + rows + 1;
    let scratch = coarse_columns + entries;
    let starts = scratch + 3 * rows;
    let diagonals = starts + rows + 1;
    let neighbors = diagonals + rows;
    let values = floats - (vectors(rows, krylov) + 8 * entries);
    Workspace {
        rows,
        entries,
        offsets,
        columns,
        merged_offsets,
        merged_columns,
        map,
        positions,
        coarse_offsets,
        coarse_columns,
        scratch,
        starts,
        diagonals,
        neighbors,
        uppers: neighbors + entries,
        lowers: neighbors + 2 * entries,
        values,
        weights: values + entries,
        merged_values: values + 2 * entries,
        merged_weights: values + 3 * entries,
        coarse_values: values + 4 * entries,
        coarse_weights: values + 5 * entries,
    }
}
