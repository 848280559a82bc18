// What each record does, and what is written of it.
use crate::input::Arrived;
use lists::Matrix;
use press_run::Run;
use record_format::Mark;
use record_order::Ending;
use refusal::Refusal;
use solver::{LinearSolveReport, LinearSolverOptions};
use std::io;

// A run, and what it keeps: the matrix and its weights in arrays of the largest sizes of a problem file, the stores of the hierarchy, and the
// statistics as numbers.
#[derive(Drop)]
pub struct Press {
    pub run: Run,
    pub offsets: [u32; 65],
    pub columns: [u32; 320],
    pub values: [f64; 320],
    pub weights: [f64; 320],
    pub words: [u32; 8192],
    pub floats: [f64; 8192],
    pub statistics: [u64; 640],
}

impl Press {
    // A refusal that ends the run.
    fn refuse(&mut self, rt: &impl Print, q: Refusal) -> io::Result<()> {
        result_lines::refused(rt, q)?;
        self.run = self.run.end();
        Ok(())
    }

    // CO.
    fn controls(&mut self, rt: &impl Print, record: &[u8]) -> io::Result<()> {
        let read = record_format::read_controls(record);
        if let Err(q) = read {
            result_lines::refused(rt, q)?;
        }
        self.run = self.run.take_controls(read);
        Ok(())
    }

    // MX.
    fn matrix(&mut self, rt: &impl Print, record: &[u8]) -> io::Result<()> {
        let read = record_format::read_matrix(
            record,
            &mut self.offsets,
            &mut self.columns,
            &mut self.values,
        );
        if let Err(q) = read {
            result_lines::refused(rt, q)?;
        }
        self.run = self.run.take_matrix(read);
        Ok(())
    }

    // FW.
    fn weights(&mut self, rt: &impl Print, record: &[u8]) -> io::Result<()> {
        let entries = self.run.came.entries as usize;
        let read = record_format::read_values(record, Mark::Weights, entries, &mut self.weights);
        if let Err(q) = read {
            result_lines::refused(rt, q)?;
        }
        self.run = self.run.take_weights(read);
        Ok(())
    }

    // UP: read whole, then the build if there was none, then the update.
    fn update(&mut self, rt: &impl Print, record: &[u8]) -> io::Result<()> {
        let mut renewed = [0.0; 320];
        let entries = self.run.came.entries as usize;
        match record_format::read_values(record, Mark::Update, entries, &mut renewed) {
            Ok(()) => self.renew(rt, &renewed),
            Err(q) => self.refuse(rt, q),
        }
    }

    // SO: read whole, then the build if there was none, then the solve.
    fn solve(&mut self, rt: &impl Print, record: &[u8]) -> io::Result<()> {
        let mut rhs = [0.0; 64];
        let mut x = [0.0; 64];
        let rows = self.run.came.rows as usize;
        match record_format::read_solve(record, rows, &mut rhs, &mut x) {
            Ok(limits) => self.iterate(rt, limits, &rhs, &mut x),
            Err(q) => self.refuse(rt, q),
        }
    }

    // The build, if there was none: before the first UP or SO and at the end.
    fn build(&mut self, rt: &impl Print) -> io::Result<()> {
        let run = self.run;
        if run.builds_first() {
            let matrix = Matrix {
                offsets: &self.offsets,
                columns: &self.columns,
                values: &self.values,
            };
            let built = press_run::build(
                run.came,
                run.options,
                matrix,
                &self.weights,
                &mut self.words,
                &mut self.floats,
                &mut self.statistics,
            );
            if let Err(q) = built {
                result_lines::refused(rt, q)?;
            }
            self.run = run.take_build(built);
        }
        Ok(())
    }

    // An update with values that were read, and the build before it.
    fn renew(&mut self, rt: &impl Print, renewed: &[f64; 320]) -> io::Result<()> {
        self.build(rt)?;
        let run = self.run;
        if run.over {
            return Ok(());
        }
        let matrix = Matrix {
            offsets: &self.offsets,
            columns: &self.columns,
            values: renewed,
        };
        let updated = press_run::update(
            run.came,
            run.handle,
            matrix,
            &self.words,
            &mut self.floats,
            &self.statistics,
        );
        match updated {
            Ok(()) => result_lines::updated(rt)?,
            Err(q) => result_lines::refused(rt, q)?,
        }
        self.run = run.take_update(updated);
        Ok(())
    }

    // The lines of an accepted solve.
    fn tell(&self, rt: &impl Print, report: LinearSolveReport, x: &[f64; 64]) -> io::Result<()> {
        let handle = self.run.handle;
        result_lines::levels(rt, handle)?;
        result_lines::report(rt, report)?;
        result_lines::solution(rt, x, handle.rows as usize)?;
        result_lines::counters(rt, &self.statistics, handle.levels)
    }

    // A solve that was read and its lines, and the build before it.
    fn iterate(
        &mut self,
        rt: &impl Print,
        limits: LinearSolverOptions,
        rhs: &[f64; 64],
        x: &mut [f64; 64],
    ) -> io::Result<()> {
        self.build(rt)?;
        let run = self.run;
        if run.over {
            return Ok(());
        }
        let solved = press_run::solve(
            run.came,
            run.handle,
            limits,
            rhs,
            x,
            &self.words,
            &mut self.floats,
            &mut self.statistics,
        );
        match solved {
            Ok(report) => self.tell(rt, report, x)?,
            Err(q) => result_lines::refused(rt, q)?,
        }
        self.run = run.take_solve(solved);
        Ok(())
    }

    // Acts on a whole record.
    fn act(&mut self, rt: &impl Print, mark: Mark, record: &[u8]) -> io::Result<()> {
        match mark {
            Mark::Controls => self.controls(rt, record),
            Mark::Matrix => self.matrix(rt, record),
            Mark::Weights => self.weights(rt, record),
            Mark::Update => self.update(rt, record),
            Mark::Solve => self.solve(rt, record),
        }
    }

    // The end of the input.
    fn finish(&mut self, rt: &impl Print) -> io::Result<()> {
        match self.run.came.at_end() {
            Ok(Ending::Build) => self.build(rt)?,
            Ok(Ending::Done) => {}
            Err(q) => result_lines::refused(rt, q)?,
        }
        self.run = self.run.end();
        Ok(())
    }

    // What the input brought: a record, or the end.
    pub fn take(&mut self, rt: &impl Print, arrived: Arrived, record: &[u8]) -> io::Result<()> {
        match arrived {
            Arrived::Record(mark) => self.act(rt, mark, record),
            Arrived::End => self.finish(rt),
            Arrived::Bad => self.refuse(rt, record_format::BAD_RECORD),
        }
    }
}
