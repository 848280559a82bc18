// Document 01's small press: the matrix 4, -2; -2, 2 with the right-hand side 2, 0, solved from zero. It writes the levels and rows, the
// report, the solution and the statistics, floats by their bits. The statistics are held as numbers, five to a record.
#![tactic(auto)]

use lists::{Matrix, Source, calls};
use options::{
    Handle, MultigridCoarseSolver, MultigridOptions, MultigridResidualNorm, MultigridSmoother,
};
use solver::LinearSolverOptions;
use std::io;

// The defaults but Cholesky, AbsoluteL2 and plain cycles.
fn controls() -> MultigridOptions {
    MultigridOptions {
        smoother: MultigridSmoother::DicGaussSeidel,
        residual_norm: MultigridResidualNorm::AbsoluteL2,
        pre_sweeps: 0,
        post_sweeps: 2,
        finest_sweeps: 1,
        sweep_level_multiplier: 1,
        max_sweeps: 4,
        coarsest_cells: 10,
        max_levels: 64,
        merge_levels: 2,
        krylov_dimension: 0,
        coarse_solver: MultigridCoarseSolver::Cholesky,
        coarse_absolute_tolerance: 1e-12,
        coarse_relative_tolerance: 0.01,
        coarse_max_iterations: 500,
        scale_correction: true,
        max_aggregate_cells: 0,
    }
}

// The solve of a hierarchy that was built, and what it leaves.
fn press(
    rt: &impl Print,
    handle: Handle,
    words: &[u32],
    floats: &mut [f64],
    statistics: &mut [u64],
) -> io::Result<()> {
    result_lines::levels(rt, handle)?;
    let rhs = [2.0, 0.0];
    let mut x = [0.0, 0.0];
    let options = LinearSolverOptions {
        absolute_tolerance: 0.0,
        relative_tolerance: 0.5,
        max_iterations: 5,
    };
    match calls::solve(handle, words, floats, statistics, &rhs, &mut x, options) {
        Ok(r) => result_lines::report(rt, r)?,
        Err(q) => result_lines::refused(rt, q)?,
    }
    result_lines::solution(rt, &x, 2)?;
    match calls::statistics(handle, words, floats, statistics) {
        Ok(levels) => result_lines::counters(rt, statistics, levels),
        Err(q) => result_lines::refused(rt, q),
    }
}

fn main(rt: HostRuntime) -> io::Result<()> {
    let offsets = [0u32, 2, 4];
    let columns = [0u32, 1, 0, 1];
    let values = [4.0, -2.0, -2.0, 2.0];
    let mut words = [0u32; 178];
    let mut floats = [0.0; 212];
    let mut statistics = [0u64; 320];
    let matrix = Matrix {
        offsets: &offsets,
        columns: &columns,
        values: &values,
    };
    let source = Source {
        rows: 2,
        matrix,
        weights: None,
        options: controls(),
    };
    match calls::new(source, &mut words, &mut floats, &mut statistics) {
        Ok(handle) => press(&rt, handle, &words, &mut floats, &mut statistics),
        Err(q) => result_lines::refused(&rt, q),
    }
}
