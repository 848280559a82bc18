// One build of a list: its arguments and the call.
use crate::first;
use crate::reading::Reader;
use crate::source::{Matrix, Source};
use crate::stores::{Extent, Stores};
use options::{Handle, MultigridOptions};
use refusal::Refusal;

// How much of each array the build gets, of weights where it is given any, and its controls.
#[derive(Clone, Copy)]
struct Problem {
    rows: usize,
    offsets: usize,
    columns: usize,
    values: usize,
    weights: Option<usize>,
    options: MultigridOptions,
}

fn byte(x: u64) -> u8 {
    (x % 256) as u8
}

// The controls in the order of options.rs, and the cap.
fn controls(c: &[u64; 17]) -> MultigridOptions {
    export::options_of(
        byte(c[0]),
        byte(c[1]),
        c[2],
        c[3],
        c[4],
        c[5],
        c[6],
        c[7],
        c[8],
        c[9],
        c[10],
        byte(c[11]),
        float::of_bits(c[12]),
        float::of_bits(c[13]),
        c[14],
        byte(c[15]),
        c[16],
    )
}

// The arrays of a build, each as long as the longest of a list.
#[derive(Drop)]
struct Arrays {
    offsets: [u32; 128],
    columns: [u32; 128],
    values: [f64; 128],
    weights: [f64; 128],
}

// The arrays of a build into those that are lent, and its controls. Of weights the text has some where none are given, too.
fn read(input: &mut Reader, arrays: &mut Arrays) -> Problem {
    let rows = input.size();
    let offsets = input.size();
    let columns = input.size();
    let values = input.size();
    let given = input.number() != 0;
    let weights = input.size();
    input.numbers(offsets, &mut arrays.offsets);
    input.numbers(columns, &mut arrays.columns);
    input.numbers(values, &mut arrays.values);
    input.numbers(weights, &mut arrays.weights);
    let mut c = [0u64; 17];
    input.numbers(17, &mut c);
    Problem {
        rows,
        offsets,
        columns,
        values,
        weights: given.then_some(weights),
        options: controls(&c),
    }
}

// The build over so much of each array as it is to get.
fn run(p: Problem, arrays: &Arrays, stores: &mut Stores) -> Result<Handle, Refusal> {
    let matrix = Matrix {
        offsets: first(&arrays.offsets, p.offsets),
        columns: first(&arrays.columns, p.columns),
        values: first(&arrays.values, p.values),
    };
    stores.build(Source {
        rows: p.rows,
        matrix,
        weights: p.weights.map(|n| first(&arrays.weights, n)),
        options: p.options,
    })
}

// The build that stands next in a text, with as much of the stores as it is to get; so much of them is lent from there on. Nobody needs its
// arrays afterwards.
pub fn from_text(input: &mut Reader, stores: &mut Stores) -> Result<Handle, Refusal> {
    let mut arrays = Arrays {
        offsets: [0; 128],
        columns: [0; 128],
        values: [0.0; 128],
        weights: [0.0; 128],
    };
    let problem = read(input, &mut arrays);
    stores.lent = Extent {
        words: input.size(),
        floats: input.size(),
    };
    stores.counters = input.size();
    run(problem, &arrays, stores)
}
