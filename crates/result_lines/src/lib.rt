// The lines in which document 01 tells a solve: levels and rows, the report, the solution, the statistics; and the refusal of a call.
// Floats are written by their bits. Statistics are numbers, five to a record.
#![tactic(auto)]

use options::Handle;
use refusal::Refusal;
use solver::{LinearSolveReport, LinearSolverStatus};
use std::io;

// The number of the question that refused.
pub fn refused(rt: &impl Print, q: Refusal) -> io::Result<()> {
    println!(rt; "refused {}", q.number)
}

// That an update is done.
pub fn updated(rt: &impl Print) -> io::Result<()> {
    println!(rt; "updated")
}

// The levels of a hierarchy, and the rows of its finest.
pub fn levels(rt: &impl Print, handle: Handle) -> io::Result<()> {
    println!(rt; "levels {} rows {}", handle.levels, handle.rows)
}

// The bits of a float with a blank before them.
fn bits(rt: &impl Print, x: f64) -> io::Result<()> {
    print!(rt; " {:016x}", float::to_bits(x))
}

// Status, iterations and the three residuals. The status is "limit" where the iterations ran out.
pub fn report(rt: &impl Print, r: LinearSolveReport) -> io::Result<()> {
    let status = match r.status {
        LinearSolverStatus::Converged => "converged",
        LinearSolverStatus::MaxIterations => "limit",
    };
    print!(rt; "solve {status} {}", r.iterations)?;
    bits(rt, r.initial_residual)?;
    bits(rt, r.final_residual)?;
    bits(rt, r.relative_residual)?;
    println!(rt; "")
}

// A line for each of so many rows.
pub fn solution(rt: &impl Print, x: &[f64], rows: usize) -> io::Result<()> {
    for (row, &value) in x.iter().enumerate().take(rows) {
        print!(rt; "x {row}")?;
        bits(rt, value)?;
        println!(rt; "")?;
    }
    Ok(())
}

// Rows, visits, sweeps before and after the correction, and coarse iterations of a level; there are 128 at most.
fn record(rt: &impl Print, statistics: &[u64], level: u64) -> io::Result<()> {
    if level < 128 {
        print!(rt; "level {level}")?;
        for counter in statistics.iter().skip(5 * level as usize).take(5) {
            print!(rt; " {counter}")?;
        }
        println!(rt; "")?;
    }
    Ok(())
}

// A line for each level.
pub fn counters(rt: &impl Print, statistics: &[u64], levels: u64) -> io::Result<()> {
    for level in 0..levels {
        record(rt, statistics, level)?;
    }
    Ok(())
}
