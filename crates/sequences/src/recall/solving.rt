// A solve of a list: its arguments, the call, and its answer with what it leaves beside those that are due.
use crate::recall::Told;
use lists::stores::checksum;
use lists::{Reader, Stores, first};
use options::Handle;
use refusal::Refusal;
use solver::{LinearSolveReport, LinearSolverOptions, LinearSolverStatus};

// Right-hand side and start of a solve, how much of each it gets, and its controls.
#[derive(Drop)]
struct Call {
    rhs: [f64; 128],
    x: [f64; 128],
    right: usize,
    start: usize,
    options: LinearSolverOptions,
}

impl Call {
    // The one that stands next.
    fn read(input: &mut Reader) -> Call {
        let mut rhs = [0.0; 128];
        let mut x = [0.0; 128];
        let right = input.size();
        let start = input.size();
        input.numbers(right, &mut rhs);
        input.numbers(start, &mut x);
        Call {
            rhs,
            x,
            right,
            start,
            options: LinearSolverOptions {
                absolute_tolerance: float::of_bits(input.number()),
                relative_tolerance: float::of_bits(input.number()),
                max_iterations: input.number(),
            },
        }
    }

    // It is made, over so much of each array as it is to get.
    fn make(&mut self, handle: Handle, stores: &mut Stores) -> Result<LinearSolveReport, Refusal> {
        let options = self.options;
        let a = self.right.min(128);
        let b = self.start.min(128);
        let rhs = &self.rhs[..];
        let x = &mut self.x[..];
        stores.solve(handle, &rhs[..a], &mut x[..b], options)
    }
}

// What a solve answers: zero or the number of the question that refuses; then, zeros where it is refused, 0 where it converged and 1
// where the iterations are used up, the iterations, and the bits of the residuals. Numbers and no Result, as the list has them: an answer
// that is due can be any six.
#[derive(Clone, Copy, PartialEq)]
struct SolveAnswer {
    number: u64,
    status: u64,
    iterations: u64,
    initial: u64,
    last: u64,
    relative: u64,
}

fn status_number(status: LinearSolverStatus) -> u64 {
    match status {
        LinearSolverStatus::Converged => 0,
        LinearSolverStatus::MaxIterations => 1,
    }
}

impl SolveAnswer {
    fn of(solved: Result<LinearSolveReport, Refusal>) -> SolveAnswer {
        match solved {
            Ok(r) => SolveAnswer {
                number: 0,
                status: status_number(r.status),
                iterations: r.iterations,
                initial: float::to_bits(r.initial_residual),
                last: float::to_bits(r.final_residual),
                relative: float::to_bits(r.relative_residual),
            },
            Err(q) => SolveAnswer {
                number: q.number,
                status: 0,
                iterations: 0,
                initial: 0,
                last: 0,
                relative: 0,
            },
        }
    }

    // Solves come after the updates: three kinds that are accepted, then one to each question.
    fn kind(self) -> usize {
        if self.number > 0 {
            66 + (self.number % 32) as usize
        } else if self.status > 0 {
            66
        } else if self.iterations > 0 {
            65
        } else {
            64
        }
    }
}

// A solve's answer, and the checksums of the solution and the statistics that it leaves.
#[derive(Clone, Copy, PartialEq)]
struct Left {
    answer: SolveAnswer,
    solution: u64,
    statistics: u64,
}

// What is due, which stands next.
fn due(input: &mut Reader) -> Left {
    Left {
        answer: SolveAnswer {
            number: input.number(),
            status: input.number(),
            iterations: input.number(),
            initial: input.number(),
            last: input.number(),
            relative: input.number(),
        },
        solution: input.number(),
        statistics: input.number(),
    }
}

// The solve that stands next.
pub fn solve(input: &mut Reader, handle: Handle, stores: &mut Stores) -> Told {
    let mut call = Call::read(input);
    let answer = SolveAnswer::of(call.make(handle, stores));
    let left = Left {
        answer,
        solution: checksum(first(&call.x, call.start)),
        statistics: checksum(stores.told()),
    };
    Told {
        kind: answer.kind(),
        same: left == due(input),
    }
}
