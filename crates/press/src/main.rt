// A problem file from standard input: controls, a matrix, weights, then updates and solves (record_format, record_order). It writes document
// 01's lines for each solve, "updated" for each update, and "refused" with the number of a question. What is decided is decided in the
// libraries under it; here records are read and answers are written.
#![tactic(auto)]

mod input;
mod running;

use input::Buffer;
use press_run::Run;
use running::Press;
use std::io;

// Record by record, until the run is over. There are no 2^64 records.
fn main(rt: HostRuntime) -> io::Result<()> {
    let mut buffer = Buffer::empty();
    let mut press = Press {
        run: Run::start(),
        offsets: [0; 65],
        columns: [0; 320],
        values: [0.0; 320],
        weights: [0.0; 320],
        words: [0; 8192],
        floats: [0.0; 8192],
        statistics: [0; 640],
    };
    for _ in 0..u64::MAX {
        let arrived = buffer.arrive(&rt, press.run.came)?;
        press.take(&rt, arrived, buffer.record())?;
        if press.run.over {
            return Ok(());
        }
    }
    Ok(())
}
