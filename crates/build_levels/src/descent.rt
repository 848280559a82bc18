// From a level with aggregates to the next one's matrix, as `build` of hierarchy.rs goes: the DIC data, the first coarse matrix, merged
// steps, and the final operator summed afresh from the level.
ghost use Rattle.std.specs.Prelude.{◌≡◌, length};
ghost use Rattle.build_level.specs.LayingContract.{level_in};
ghost use Rattle.build_levels.specs.DescentContract.{DescendOk, Descended};
ghost use Rattle.build_levels.specs.Steps.{StepsDone};

use build_level::Frontier;
use coarsening::{Held, Merging, Setup, Workspace};
use layout::Place;
use refusal::Refusal;

// The level's matrix at its place, with its weights in the temporaries.
fn level_in(t: Workspace, p: Place) -> Held
    ensures { result ≡ level_in t p }
{
    Held {
        rows: p.rows,
        entries: p.entries,
        offsets: p.offsets,
        columns: p.columns,
        values: p.values,
        weights: t.weights,
    }
}

// The first coarse matrix, with question 18, and the merged steps from it.
fn first_steps(
    w: &mut [u32],
    f: &mut [f64],
    x: Setup,
    s: Frontier,
    p: Place,
    count: usize,
) -> Result<Merging, Refusal>
    requires { DescendOk w.old (length f.old) x.options x.workspace s p count }
    ensures { StepsDone w.old w.new f.old f.new x.options x.given x.workspace s p count result }
{
    let m = level_in(x.workspace, p);
    let first = coarsening::step(w, f, x, m, p.links, count);
    if !first.finite {
        return Err(refusal::BAD_COARSE_VALUE);
    }
    let last = Merging {
        count,
        entries: first.entries,
        stage: s.stage + 1,
    };
    coarsening::merge(
        w,
        f,
        x,
        p.rows,
        p.links,
        last,
        x.options.merge_levels - 1,
        s.level + 1,
    )
}

// The level's numbers, its aggregates with their positions, and the next level's matrix: its rows and entries, and the pairings made so
// far. The level is not the last one: its words say so, and that it has no coupled rows of a last level.
pub fn descend(
    w: &mut [u32],
    f: &mut [f64],
    x: Setup,
    s: Frontier,
    p: Place,
    count: usize,
) -> Result<Merging, Refusal>
    requires { DescendOk w.old (length f.old) x.options x.workspace s p count }
    ensures { Descended w.old w.new f.old f.new x.options x.given x.workspace s p count result }
{
    store::fill(w, s.a + 1, 2, 0);
    layout::smoother_data(w, f, options::needs_dic(x.options.smoother), p, s.level)?;
    let merged = first_steps(w, f, x, s, p, count)?;
    let m = level_in(x.workspace, p);
    let next = coarsening::repair(w, f, x, m, p.links, merged.count, p.positions);
    if !next.finite {
        return Err(refusal::BAD_COARSE_VALUE);
    }
    Ok(Merging {
        entries: next.entries,
        ..merged
    })
}
