// One iteration of a solve over regions of the store.
use matrix::SymmetricMatrix;

pub mod iteration;
pub mod places;

// Where the finest matrix and the vectors of a solve stand, and their length.
#[derive(Clone, Copy)]
pub struct Regions {
    pub matrix: SymmetricMatrix,
    pub rows: usize,
    pub sums: usize,
    pub rhs: usize,
    pub solution: usize,
    pub directions: usize,
    pub images: usize,
    pub residual: usize,
    pub correction: usize,
    pub product: usize,
}

// What an iteration leaves: the pairs stored now, and the norm of the residual.
#[derive(Clone, Copy)]
pub struct Stepped {
    pub used: usize,
    pub last: f64,
}
