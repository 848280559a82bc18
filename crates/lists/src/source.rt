// What is built from: a matrix, and by what its rows are paired.
use options::MultigridOptions;

// The arrays of a matrix in compressed rows, as they are lent.
#[derive(Clone, Copy)]
pub struct Matrix<'a> {
    pub offsets: &'a [u32],
    pub columns: &'a [u32],
    pub values: &'a [f64],
}

// A matrix of so many rows, and the controls of its build. Where there are weights, one to each entry, it is paired by them, else by its
// values.
#[derive(Clone, Copy)]
pub struct Source<'a> {
    pub rows: usize,
    pub matrix: Matrix<'a>,
    pub weights: Option<&'a [f64]>,
    pub options: MultigridOptions,
}
