// A run of a problem file between records, by value.
ghost use Rattle.std.specs.Prelude.{◌≡◌};
ghost use Rattle.press_run.specs.Run.{started, ended, went_on, controls_taken, matrix_taken, weights_taken, builds_first, build_taken, update_taken, solve_taken};

use options::{Handle, MultigridOptions};
use record_format::{Mark, MatrixSizes};
use record_order::Came;
use refusal::Refusal;
use solver::LinearSolveReport;

// What has come, the controls, and once it is built the handle. A run that is over reads nothing more. `over` is no flag of one of the
// others, so that they are no Option: what has come, controls and handle stay when it ends, as `ended` says.
#[derive(Clone, Copy)]
pub struct Run {
    pub over: bool,
    pub came: Came,
    pub options: MultigridOptions,
    pub handle: Handle,
}

impl Run {
    // Before the first record.
    pub fn start() -> Run
        ensures { result ≡ started }
    {
        let options = MultigridOptions::default();
        let handle = Handle {
            options,
            levels: 0,
            rows: 0,
            entries: 0,
        };
        Run {
            over: false,
            came: Came::nothing(),
            options,
            handle,
        }
    }

    // It is over.
    pub fn end(mut self) -> Run
        ensures { result ≡ ended self }
    {
        self.over = true;
        self
    }

    // It goes on after a record of that mark.
    fn go_on(mut self, mark: Mark, rows: u64, entries: u64) -> Run
        ensures { result ≡ went_on self mark rows entries }
    {
        self.came = self.came.after(mark, rows, entries);
        self
    }

    // After CO.
    pub fn take_controls(self, read: Result<MultigridOptions, Refusal>) -> Run
        ensures { result ≡ controls_taken self read }
    {
        match read {
            Ok(options) => {
                let mut later = self.go_on(Mark::Controls, 0, 0);
                later.options = options;
                later
            }
            Err(_) => self.end(),
        }
    }

    // After MX.
    pub fn take_matrix(self, read: Result<MatrixSizes, Refusal>) -> Run
        ensures { result ≡ matrix_taken self read }
    {
        match read {
            Ok(sizes) => self.go_on(Mark::Matrix, sizes.rows, sizes.entries),
            Err(_) => self.end(),
        }
    }

    // After FW.
    pub fn take_weights(self, read: Result<(), Refusal>) -> Run
        ensures { result ≡ weights_taken self read }
    {
        match read {
            Ok(()) => self.go_on(Mark::Weights, 0, 0),
            Err(_) => self.end(),
        }
    }

    // Whether a build is made before an UP or an SO acts, and at the end.
    pub fn builds_first(self) -> bool
        ensures { result ≡ builds_first self }
    {
        !self.came.calls
    }

    // After the build, whose refusal ends the run.
    pub fn take_build(mut self, built: Result<Handle, Refusal>) -> Run
        ensures { result ≡ build_taken self built }
    {
        match built {
            Ok(handle) => {
                self.handle = handle;
                self
            }
            Err(_refusal) => self.end(),
        }
    }

    // After an UP. Refused, the run goes on with the old coefficients.
    pub fn take_update(self, updated: Result<(), Refusal>) -> Run
        ensures { result ≡ update_taken self updated }
    {
        let _ = updated;
        self.go_on(Mark::Update, 0, 0)
    }

    // After an SO. Refused, the run goes on.
    pub fn take_solve(self, solved: Result<LinearSolveReport, Refusal>) -> Run
        ensures { result ≡ solve_taken self solved }
    {
        let _ = solved;
        self.go_on(Mark::Solve, 0, 0)
    }
}
