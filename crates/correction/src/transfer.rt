// cycle.rs: residuals go down to the aggregates, and corrections come up from them.
ghost use Rattle.std.specs.Prelude.{length};
ghost use Rattle.store.specs.Region.{part, Wrote};
ghost use Rattle.correction.specs.Correction.{add_plain_of};
ghost use Rattle.correction.specs.Transfer.{RestrictOk, ProlongOk, gather_of, restrict_of, prolong_of};

// Which aggregate each row of a level is in: so many rows, so many aggregates, and where the rows' numbers stand in the words.
#[derive(Clone, Copy)]
pub struct Aggregates {
    pub rows: usize,
    pub count: usize,
    pub map: usize,
}

// No loop shared by `gather`, `prolong` and `add_prolonged`: one writes at the aggregate, one at the row, and one reads what it writes.
// A loop that takes the turn as a closure would be no plainer than the loop.

// Each row's residual, added to what stands at its aggregate.
fn gather(w: &[u32], f: &mut [f64], a: Aggregates, residual: usize, out: usize)
    requires { RestrictOk w.now (length f.old) a.rows a.count a.map residual out }
    ensures { Wrote out a.count
        (gather_of a.rows (part a.map a.rows w.now) (part residual a.rows f.old)
        (part out a.count f.old))
        f.old f.new }
{
    for row in 0..a.rows {
        let aggregate = store::index_at(w, a.map, row, a.count);
        f[out + aggregate] += f[residual + row];
    }
}

// The residuals of the rows, added up over each aggregate: the next level's right-hand side.
pub fn restrict(w: &[u32], f: &mut [f64], a: Aggregates, residual: usize, out: usize)
    requires { RestrictOk w.now (length f.old) a.rows a.count a.map residual out }
    ensures { Wrote out a.count
        (restrict_of a.count a.rows (part a.map a.rows w.now) (part residual a.rows f.old))
        f.old f.new }
{
    store::fill(f, out, a.count, 0.0);
    gather(w, f, a, residual, out);
}

// Each row's correction: the coarse solution at its aggregate.
pub fn prolong(w: &[u32], f: &mut [f64], a: Aggregates, coarse: usize, out: usize)
    requires { ProlongOk w.now (length f.old) a.rows a.count a.map coarse out }
    ensures { Wrote out a.rows
        (prolong_of a.rows (part a.map a.rows w.now) (part coarse a.count f.old))
        f.old f.new }
{
    for row in 0..a.rows {
        let aggregate = store::index_at(w, a.map, row, a.count);
        f[out + row] = f[coarse + aggregate];
    }
}

// The coarse solution, added to x straight through the aggregate numbers: the sum of what `prolong` would write, with no vector between.
pub fn add_prolonged(w: &[u32], f: &mut [f64], a: Aggregates, coarse: usize, x: usize)
    requires { ProlongOk w.now (length f.old) a.rows a.count a.map coarse x }
    ensures { Wrote x a.rows
        (add_plain_of a.rows (prolong_of a.rows (part a.map a.rows w.now) (part coarse a.count f.old))
        (part x a.rows f.old))
        f.old f.new }
{
    for row in 0..a.rows {
        let aggregate = store::index_at(w, a.map, row, a.count);
        f[x + row] += f[coarse + aggregate];
    }
}
