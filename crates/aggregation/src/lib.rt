// aggregation.rs: `pairs`, connected strength-based aggregation, with the pattern and the map as regions of one store.
#![tactic(auto)]

ghost use Rattle.std.specs.Prelude.{◌≡◌, ◌<◌, ◌+◌, ◌≤◌, length};
ghost use Rattle.store.specs.Vector.{filled};
ghost use Rattle.aggregation.specs.Pairs.{consider_of, strongest_of, pairing, pair_row_of, pairs_of};
ghost use Rattle.aggregation.specs.Turns.{strength_of, row_of};
ghost use Rattle.aggregation.specs.Layout.{map_at, weighted_at, GraphOk, ChoiceOk, RowOk, full_at, JoinOk, Joined, Mapped, Paired};

// Where a matrix stands in the stores: row offsets (rows + 1 words), columns (`entries` words) and the map to be written
// (`rows` words, above both, and as many behind it for the sizes of the aggregates); the weights (`entries` floats), or, where
// `absolute` is set, the matrix's values: a flag of the weights, as `strengths_of` has it. An aggregate of `cap` rows is full; a cap of 0
// is none, and no Option: `Weighted` of specs/Pairs.antt and the options of the C interface have it so.
#[derive(Clone, Copy)]
pub struct Graph {
    pub rows: usize,
    pub entries: usize,
    pub offsets: usize,
    pub columns: usize,
    pub map: usize,
    pub weights: usize,
    pub absolute: bool,
    pub cap: u64,
}

// A row's strongest free neighbour and the aggregate of its strongest assigned one. The number of rows stands for none, and no
// Option: `choice` and `assign_of` of specs/Pairs.antt have it so, as the words of the map do.
#[derive(Clone, Copy)]
struct Choice {
    free: u32,
    adjacent: u32,
    freeweight: f64,
    adjacentweight: f64,
}

fn strength(x: f64, absolute: bool) -> f64
    ensures { result ≡ strength_of absolute x }
{
    if absolute { float::abs(x) } else { x }
}

// Whether an aggregate is full; a free row is in none.
fn is_full(w: &[u32], g: Graph, cluster: u32) -> bool
    requires { g.map + g.rows + g.rows ≤ length w.now }
    ensures { result ≡ full_at g w.now cluster }
{
    if g.cap == 0 {
        return false;
    }
    let c = store::wide(cluster);
    if g.rows <= c {
        return false;
    }
    let size = store::wide(w[g.map + g.rows + c]);
    g.cap <= size as u64
}

// The entry in `column`, whose row is in the aggregate `cluster`, which may be full, or in none.
fn consider(
    none: u32,
    row: u32,
    column: u32,
    weight: f64,
    cluster: u32,
    full: bool,
    s: Choice,
) -> Choice
    ensures { result ≡ consider_of none row column weight cluster full s }
{
    if column == row {
        return s;
    }
    if cluster == none {
        if weight > s.freeweight {
            return Choice {
                free: column,
                freeweight: weight,
                ..s
            };
        }
        return s;
    }
    if full {
        return s;
    }
    if weight > s.adjacentweight {
        return Choice {
            adjacent: cluster,
            adjacentweight: weight,
            ..s
        };
    }
    s
}

// The choice of a row.
fn strongest(w: &[u32], f: &[f64], g: Graph, row: usize) -> Choice
    requires { ChoiceOk w.now (length f.now) g row }
    ensures { result ≡ strongest_of (weighted_at g w.now f.now) (map_at g w.now) row }
{
    let none = g.rows as u32;
    let own = row as u32;
    let mut s = Choice {
        free: none,
        adjacent: none,
        freeweight: 0.0,
        adjacentweight: 0.0,
    };
    let start = store::wide(w[g.offsets + row]);
    let end = store::wide(w[g.offsets + row + 1]);
    for entry in start..end {
        let column = store::index_at(w, g.columns, entry, g.rows);
        let weight = strength(f[g.weights + entry], g.absolute);
        let cluster = w[g.map + column];
        let full = is_full(w, g, cluster);
        s = consider(none, own, column as u32, weight, cluster, full, s);
    }
    s
}

// Puts a free row into an aggregate, which has a row more.
fn join(w: &mut [u32], g: Graph, row: usize, cluster: u32)
    requires { JoinOk w.old g row cluster }
    ensures { Joined g row cluster w.old w.new }
{
    let place = g.map + g.rows + store::wide(cluster);
    let size = w[place];
    w[g.map + row] = cluster;
    w[place] = size + 1;
}

// One row: assigned already, or paired, or joined to an aggregate, or alone. The answer is the count of aggregates.
fn pair_row(w: &mut [u32], f: &[f64], g: Graph, row: usize, count: usize) -> usize
    requires { RowOk w.old (length f.now) g row count }
    ensures { Paired g (pair_row_of (weighted_at g w.old f.now) row (pairing (map_at g w.old) count)) w.old w.new result }
{
    let none = g.rows as u32;
    if w[g.map + row] != none {
        return count;
    }
    let s = strongest(w, f, g, row);
    if s.free != none {
        join(w, g, row, count as u32);
        join(w, g, store::wide(s.free), count as u32);
        return count + 1;
    }
    if s.adjacent != none {
        join(w, g, row, s.adjacent);
        return count;
    }
    // no entry above zero, or none with room: the row stays alone
    join(w, g, row, count as u32);
    count + 1
}

// The row of a turn: alternating the direction limits the bias of greedy pairing.
fn row_at(forward: bool, n: usize, index: usize) -> usize
    requires { index < n }
    ensures { result ≡ row_of forward n index }
{
    if forward { index } else { n - 1 - index }
}

// No row is in an aggregate yet.
fn free_all(w: &mut [u32], g: Graph)
    requires rows_in_bounds { g.map + g.rows + g.rows ≤ length w.old }
    requires rows_bound { g.rows ≤ 65536 }
    ensures { Mapped g (filled g.rows g.rows) w.old w.new }
{
    store::fill(w, g.map, g.rows, g.rows as u32);
    store::fill(w, g.map + g.rows, g.rows, 0);
}

// Writes the aggregate of each row to the map, and returns their count.
pub fn pairs(w: &mut [u32], f: &[f64], g: Graph, forward: bool) -> usize
    requires { GraphOk w.old (length f.now) g }
    ensures { Paired g (pairs_of (weighted_at g w.old f.now) forward) w.old w.new result }
{
    let n = g.rows;
    free_all(w, g);
    let mut count = 0;
    for index in 0..n {
        let row = row_at(forward, n, index);
        count = pair_row(w, f, g, row, count);
    }
    count
}
