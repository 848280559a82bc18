// Controls of the multigrid solver, and the handle that a build answers with.
ghost use Rattle.std.specs.Prelude.{◌≡◌};
ghost use Rattle.options.specs.Options.{default_options, tolerable, valid_of, needs_dic, controls_asked};
ghost use Rattle.refusal.specs.Outcome.{verdict_of};

use refusal::Refusal;

// What damps the rough part of an error on a level.
#[derive(Clone, Copy, PartialEq, Eq, Debug)]
pub enum MultigridSmoother {
    GaussSeidel,
    SymmetricGaussSeidel,
    DicGaussSeidel,
}

// How a solve measures its residual.
#[derive(Clone, Copy, PartialEq, Eq, Debug)]
pub enum MultigridResidualNorm {
    AbsoluteL2,
    NormalizedL1,
}

// Terminal-level solve. Dense factorization is bounded by coarsest_cells.
#[derive(Clone, Copy, PartialEq, Eq, Debug)]
pub enum MultigridCoarseSolver {
    PcgDic,
    Cholesky,
}

// Controls for a standalone algebraic multigrid solve, not a PCG preconditioner.
#[derive(Clone, Copy)]
pub struct MultigridOptions {
    pub smoother: MultigridSmoother,
    pub residual_norm: MultigridResidualNorm,
    pub pre_sweeps: u64,
    pub post_sweeps: u64,
    pub finest_sweeps: u64,
    pub sweep_level_multiplier: u64,
    pub max_sweeps: u64,
    // Maximum coupled unknowns on the terminal level; independent diagonal
    // constraints are solved separately and do not extend the hierarchy.
    pub coarsest_cells: u64,
    pub max_levels: u64,
    // Pairing stages combined into one stored level.
    pub merge_levels: u64,
    // Restart length for flexible GCR acceleration; zero selects plain cycles.
    pub krylov_dimension: u64,
    pub coarse_solver: MultigridCoarseSolver,
    pub coarse_absolute_tolerance: f64,
    pub coarse_relative_tolerance: f64,
    pub coarse_max_iterations: u64,
    pub scale_correction: bool,
    // Most rows of an aggregate, in the matrix that is paired; zero is no cap. The Rust has none.
    pub max_aggregate_cells: u64,
}

// A build's answer: its controls, the levels stored, and the finest matrix's rows and entries.
#[derive(Clone, Copy)]
pub struct Handle {
    pub options: MultigridOptions,
    pub levels: u64,
    pub rows: u64,
    pub entries: u64,
}

impl Default for MultigridOptions {
    ghost is_default = { λ o. o ≡ default_options };

    fn default() -> MultigridOptions {
        MultigridOptions {
            smoother: MultigridSmoother::DicGaussSeidel,
            residual_norm: MultigridResidualNorm::NormalizedL1,
            pre_sweeps: 0,
            post_sweeps: 2,
            finest_sweeps: 1,
            sweep_level_multiplier: 1,
            max_sweeps: 4,
            coarsest_cells: 10,
            max_levels: 64,
            merge_levels: 2,
            krylov_dimension: 4,
            coarse_solver: MultigridCoarseSolver::PcgDic,
            coarse_absolute_tolerance: 1e-12,
            coarse_relative_tolerance: 0.01,
            coarse_max_iterations: 500,
            scale_correction: true,
            max_aggregate_cells: 0,
        }
    }
}

impl MultigridOptions {
    // The coarse tolerances and limit are asked of every coarse solver. One expression of `&`: no branch.
    pub fn validate(self) -> bool
        ensures { result ≡ valid_of self }
    {
        ((1 <= self.max_sweeps) & (self.max_sweeps <= 64))
            & (self.pre_sweeps <= self.max_sweeps)
            & (self.post_sweeps <= self.max_sweeps)
            & ((1 <= self.finest_sweeps) & (self.finest_sweeps <= 64))
            & ((1 <= self.coarsest_cells) & (self.coarsest_cells <= 256))
            & ((1 <= self.max_levels) & (self.max_levels <= 128))
            & ((1 <= self.merge_levels) & (self.merge_levels <= 4))
            & (self.krylov_dimension <= 16)
            & is_tolerable(self.coarse_absolute_tolerance)
            & is_tolerable(self.coarse_relative_tolerance)
            & (1 <= self.coarse_max_iterations)
            & ((self.max_aggregate_cells == 0)
                | ((2 <= self.max_aggregate_cells) & (self.max_aggregate_cells <= 65535)))
    }
}

// A tolerance or a weight may be any finite number that is not below zero, minus zero too.
pub fn is_tolerable(t: f64) -> bool
    ensures { result ≡ tolerable t }
{
    float::is_finite(t) & !(t < 0.0)
}

// Whether the smoother makes DIC sweeps first, and so needs DIC data.
pub fn needs_dic(kind: MultigridSmoother) -> bool
    ensures { result ≡ needs_dic kind }
{
    matches!(kind, MultigridSmoother::DicGaussSeidel)
}

// Questions 6 and 7: the controls are valid, and the coarse solver is Cholesky.
pub fn check_controls(o: MultigridOptions) -> Result<(), Refusal>
    ensures { result ≡ verdict_of (controls_asked o) }
{
    if !o.validate() {
        return Err(refusal::INVALID_CONTROLS);
    }
    match o.coarse_solver {
        MultigridCoarseSolver::PcgDic => Err(refusal::NOT_CHOLESKY),
        MultigridCoarseSolver::Cholesky => Ok(()),
    }
}
