// cycle.rs: one visit of each level. A level's vectors stand one after the other in its scratch; after them come those of the next level.
#![tactic(auto)]

ghost use Rattle.std.specs.Prelude.{◌≡◌, ◌+◌, ◌*◌, ◌<◌, length};
ghost use Rattle.layout.specs.Layout.{rows_at};
ghost use Rattle.cycle.specs.Cycle.{count_of};
ghost use Rattle.cycle.specs.Counters.{place_of};
ghost use Rattle.cycle.specs.Contract.{CycleOk, CycleDone, NextOk, inner_at, EndOk, StepOk};
ghost use Rattle.cycle.specs.Contract.{Visited, WentDown, end_at, up_at, work_ok, work_done};

use options::MultigridOptions;
use refusal::Refusal;
use visit::Inner;

pub mod visit;

// A level is told by its depth, by a in the words, b in the floats and s in the scratch. In `work` and `cycle`, which take nine
// parameters, these stay numbers: a struct of them by value took 400 bytes of stack for each level that waits in place of 352.

// Which way a cycle goes at a level: the last is solved, another is left downward and entered again upward. An enum, and no closure that
// does the work: `work_ok` and `work_done` say by the way what a level asks and leaves.
#[derive(Clone, Copy)]
pub enum Way {
    Last,
    Down,
    Up,
}

// What is counted on a level: its visits, its sweeps before the correction, those after it, its coarse iterations.
#[derive(Clone, Copy)]
enum Counter {
    Visits,
    PreSweeps,
    PostSweeps,
    CoarseIterations,
}

impl Counter {
    // Where it stands among the four counters of a level.
    fn place(self) -> u64
        ensures { result ≡ place_of self }
    {
        match self {
            Counter::Visits => 0,
            Counter::PreSweeps => 1,
            Counter::PostSweeps => 2,
            Counter::CoarseIterations => 3,
        }
    }
}

// Adds to a counter of the level at that depth.
fn count(t: &mut [u64; 512], depth: u64, counter: Counter, more: u64)
    requires { 4 * depth + place_of counter < 512 }
    ensures { t.new ≡ count_of (4 * depth + place_of counter) more t.old }
{
    let i = (4 * depth + counter.place()) as usize;
    t[i] = float::saturating_add(t[i], more);
}

// The last level: every row by its diagonal, the coupled ones by the factor, which takes no iteration.
fn end(
    w: &[u32],
    f: &mut [f64],
    t: &mut [u64; 512],
    depth: u64,
    a: usize,
    b: usize,
    s: usize,
) -> Result<(), Refusal>
    requires { EndOk w.now (length f.old) depth a b s }
    ensures { Visited s (rows_at w.now a) (end_at w.now f.old t.old depth a b s) f.old f.new t.new result }
{
    let p = layout::place_at(w, a, b);
    let terminal = layout::terminal_in(p, store::wide(w[a + 2]));
    let v = smoother::level_scratch(s, p.rows);
    let r = coarse::solve(w, f, terminal, p.inverse, v.rhs, v.x, v.work);
    count(t, depth, Counter::CoarseIterations, 0);
    r
}

// A level that is not the last, as its visit takes it.
fn inner_at(w: &[u32], a: usize, b: usize, s: usize) -> Inner
    requires { NextOk w.now a b s }
    ensures { result ≡ inner_at w.now a b s }
{
    let p = layout::place_at(w, a, b);
    let matrix = layout::kernel_in(p);
    let after = p.positions + p.entries;
    let next = store::wide(w[after]);
    let vectors = smoother::level_scratch(s, p.rows);
    let below = smoother::level_scratch(s + 5 * p.rows, next);
    Inner {
        matrix,
        dic: p.dic,
        links: p.links,
        vectors,
        below,
        next,
    }
}

// The way down of a level.
fn down(
    w: &[u32],
    f: &mut [f64],
    o: MultigridOptions,
    depth: u64,
    a: usize,
    b: usize,
    s: usize,
) -> Result<(), Refusal>
    requires { StepOk w.now (length f.old) depth a b s }
    ensures { WentDown o w.now f.old f.new depth a b s result }
{
    let g = inner_at(w, a, b, s);
    visit::down(w, f, g, o.smoother, options::pre_sweeps_at(o, depth))
}

// The way up of a level, after which its sweeps are counted.
fn up(
    w: &[u32],
    f: &mut [f64],
    t: &mut [u64; 512],
    o: MultigridOptions,
    depth: u64,
    a: usize,
    b: usize,
    s: usize,
) -> Result<(), Refusal>
    requires { StepOk w.now (length f.old) depth a b s }
    ensures { Visited s (rows_at w.now a) (up_at o w.now f.old t.old depth a b s) f.old f.new t.new result }
{
    let g = inner_at(w, a, b, s);
    let pre = options::pre_sweeps_at(o, depth);
    let post = options::post_sweeps_at(o, depth);
    visit::up(w, f, g, o.smoother, o.scale_correction, pre, post)?;
    count(t, depth, Counter::PreSweeps, pre);
    count(t, depth, Counter::PostSweeps, post);
    Ok(())
}

// The work at a level, whichever way the cycle goes. One function for all of it, called from several places, so that the compiled
// recursion keeps nothing of it for the levels that wait for deeper ones.
fn work(
    w: &[u32],
    f: &mut [f64],
    t: &mut [u64; 512],
    o: MultigridOptions,
    way: Way,
    depth: u64,
    a: usize,
    b: usize,
    s: usize,
) -> Result<(), Refusal>
    requires { work_ok way w.now (length f.old) depth a b s }
    ensures { work_done way o w.now f.old f.new t.old t.new depth a b s result }
{
    match way {
        Way::Last => end(w, f, t, depth, a, b, s),
        Way::Down => down(w, f, o, depth, a, b, s),
        Way::Up => up(w, f, t, o, depth, a, b, s),
    }
}

// One cycle over the levels left, the first of which stands at a, b and s.
pub fn cycle(
    w: &[u32],
    f: &mut [f64],
    t: &mut [u64; 512],
    o: MultigridOptions,
    left: u64,
    depth: u64,
    a: usize,
    b: usize,
    s: usize,
) -> Result<(), Refusal>
    requires { CycleOk left w.now (length f.old) depth a b s }
    ensures { CycleDone o left w.now f.old f.new t.old t.new depth a b s result }
{
    count(t, depth, Counter::Visits, 1);
    if left == 1 {
        return work(w, f, t, o, Way::Last, depth, a, b, s);
    }
    work(w, f, t, o, Way::Down, depth, a, b, s)?;
    let p = layout::place_at(w, a, b);
    let deeper = p.positions + p.entries;
    let scratch = s + 5 * p.rows;
    cycle(w, f, t, o, left - 1, depth + 1, deeper, p.factor, scratch)?;
    work(w, f, t, o, Way::Up, depth, a, b, s)
}
