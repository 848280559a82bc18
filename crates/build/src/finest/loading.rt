// The matrix that is built from, copied into the temporaries of the next level's matrix.
ghost use Rattle.std.specs.Prelude.{is_some, length};
ghost use Rattle.build.specs.Asking.{weights_in};
ghost use Rattle.build.specs.Finest.{WeightsOk, WeightsLoaded, LoadOk, Loaded};

use crate::Source;
use coarsening::Workspace;

// The weights, where they are given.
fn load_weights(f: &mut [f64], x: Source, to: usize)
    requires { WeightsOk (length f.old) (is_some x.weights) (weights_in x) to }
    ensures { WeightsLoaded f.old f.new (is_some x.entry.weights) (weights_in x.entry) to }
{
    if let Some(weights) = x.weights {
        store::load(f, weights, to);
    }
}

// The arrays, each where the next level's stands.
pub fn load(w: &mut [u32], f: &mut [f64], x: Source, t: Workspace)
    requires { LoadOk (length w.old) (length f.old)
        x.offsets.now x.columns.now x.values.now (is_some x.weights) (weights_in x) t }
    ensures { Loaded w.old w.new f.old f.new
        x.entry.offsets.now x.entry.columns.now x.entry.values.now (is_some x.entry.weights) (weights_in x.entry) t }
{
    store::load(w, x.offsets, t.offsets);
    store::load(w, x.columns, t.columns);
    store::load(f, x.values, t.values);
    load_weights(f, x, t.weights);
}
