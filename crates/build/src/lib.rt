// `build` of hierarchy.rs, in lent stores: the questions on the input, and the levels from the finest on.
#![tactic(auto)]

ghost use Rattle.std.specs.Prelude.{◌≡◌, length};
ghost use Rattle.build.specs.Built.{BuildDone};
ghost use Rattle.build.specs.Asking.{input_in};
ghost use Rattle.build.specs.AskingContract.{Fitting};
ghost use Rattle.build.specs.Steps.{LevelsOk, LevelsDone, empty_made, Begun, Attempted, Cleared};

use coarsening::Setup;
use finest::loading;
use options::{Handle, MultigridOptions};
use questions::space;
use refusal::Refusal;

pub mod finest;
pub mod questions;

// What is built from: a matrix in compressed rows, the weight of each entry where weights are given, and the controls.
#[derive(Clone, Copy)]
pub struct Source<'a> {
    pub rows: usize,
    pub offsets: &'a [u32],
    pub columns: &'a [u32],
    pub values: &'a [f64],
    pub weights: Option<&'a [f64]>,
    pub options: MultigridOptions,
}

// The levels of the matrix in the temporaries, and behind them the row sums of the finest.
fn levels(w: &mut [u32], f: &mut [f64], x: Setup) -> Result<Handle, Refusal>
    requires { LevelsOk w.old (length f.old) x.options x.workspace }
    ensures { LevelsDone w.old w.new f.old f.new x.options x.given x.workspace result }
{
    let o = x.options;
    let t = x.workspace;
    let grown = build_levels::grow(w, f, x, finest::frontier(o, t))?;
    finest::sums(w, f, o, grown.end, t.rows, t.entries);
    Ok(Handle {
        options: o,
        levels: grown.levels,
        rows: t.rows as u64,
        entries: t.entries as u64,
    })
}

// From question 10 on: the matrix is loaded into the temporaries, and the levels are grown from there.
fn begin(x: Source, w: &mut [u32], f: &mut [f64]) -> Result<Handle, Refusal>
    requires { Fitting (length w.old) (length f.old) (input_in x) }
    ensures { Begun w.old w.new f.old f.new (input_in x.entry) result }
{
    let t = space::workspace_at(
        w.len(),
        f.len(),
        x.rows,
        x.columns.len(),
        x.options.krylov_dimension as usize,
    );
    loading::load(w, f, x, t);
    if !finest::symmetric(w, x.values, t) {
        return Err(refusal::NOT_SYMMETRIC);
    }
    let setup = Setup {
        options: x.options,
        workspace: t,
        given: x.weights.is_some(),
    };
    levels(w, f, setup)
}

// The handle of a matrix of no rows, which has no levels.
fn empty(rows: usize, entries: usize, o: MultigridOptions) -> Result<Handle, Refusal>
    ensures { result ≡ empty_made o rows entries }
{
    Ok(Handle {
        options: o,
        levels: 0,
        rows: rows as u64,
        entries: entries as u64,
    })
}

// The whole build; where it refuses nothing is said of what the stores hold.
fn attempt(x: Source, records: usize, w: &mut [u32], f: &mut [f64]) -> Result<Handle, Refusal>
    ensures { Attempted w.old w.new f.old f.new (input_in x.entry) records result }
{
    questions::asked(x, records, w.len(), f.len())?;
    if x.rows == 0 {
        return empty(x.rows, x.columns.len(), x.options);
    }
    begin(x, w, f)
}

// Both stores zero.
fn clear(w: &mut [u32], f: &mut [f64])
    ensures { Cleared w.old w.new f.old f.new }
{
    store::zero_words(w);
    store::zero_floats(f);
}

// The hierarchy of a matrix in compressed rows, with the weight of each entry where weights are given, in two stores whatever these
// held; refused, both hold zeros.
pub fn build(x: Source, records: usize, w: &mut [u32], f: &mut [f64]) -> Result<Handle, Refusal>
    ensures { BuildDone w.old w.new f.old f.new (input_in x.entry) records result }
{
    // A match, no `?`: a refusal clears the stores before it is passed on.
    match attempt(x, records, w, f) {
        Ok(h) => Ok(h),
        Err(q) => {
            clear(w, f);
            Err(q)
        }
    }
}
