// The first rows of loads, so that whoever makes the same loads elsewhere can compare by eye. For each load it writes a line with seed, extents, rows and entries, and a
// line for each of its first eight rows: of every entry the column and the value.
//
// With four numbers as arguments, seed, width, height and depth, it shows that load; else three: a flat one of two cells by two, one with depth, and one of 64 cells by 64.
#![tactic(auto)]

use load::loading::{Size, load};
use std::env::{Env, FillError};
use std::io;
use store::wide;

// The whole number that a float is: no entry of a row with six faces is above 6,145.
fn magnitude(x: f64) -> u64 {
    (0..8192u32)
        .find(|&n| x <= f64::from(n))
        .map_or(8192, u64::from)
}

// A value with a blank before it, and its sign where it is below zero.
fn value(rt: &impl Print, x: f64) -> io::Result<()> {
    if x < 0.0 {
        print!(rt; " -{}", magnitude(-x))
    } else {
        print!(rt; " {}", magnitude(x))
    }
}

// A matrix in compressed rows, as a load writes one: the offsets of its rows, and a column and a value for each entry.
#[derive(Clone, Copy)]
struct Matrix<'a> {
    offsets: &'a [u32],
    columns: &'a [u32],
    values: &'a [f64],
}

impl Matrix<'_> {
    // The column and the value of an entry.
    fn entry(&self, rt: &impl Print, at: usize) -> io::Result<()> {
        if let Some(column) = self.columns.get(at) {
            print!(rt; " {column}")?;
        }
        if let Some(&x) = self.values.get(at) {
            value(rt, x)?;
        }
        Ok(())
    }

    // The entries of a row, from one place to another.
    fn entries(&self, rt: &impl Print, from: usize, to: usize) -> io::Result<()> {
        for at in from..to {
            if at > from {
                print!(rt; ",")?;
            }
            self.entry(rt, at)?;
        }
        Ok(())
    }

    // The line of a row.
    fn row(&self, rt: &impl Print, i: usize) -> io::Result<()> {
        if i < 65536 && i + 1 < self.offsets.len() {
            print!(rt; "row {i}:")?;
            self.entries(rt, wide(self.offsets[i]), wide(self.offsets[i + 1]))?;
            println!(rt; "")?;
        }
        Ok(())
    }

    // The lines of so many rows, but eight at most.
    fn rows(&self, rt: &impl Print, count: u64) -> io::Result<()> {
        for i in 0..count.min(8) {
            self.row(rt, i as usize)?;
        }
        Ok(())
    }
}

// What was asked for.
fn title(rt: &impl Print, seed: u64, width: u64, height: u64, depth: u64) -> io::Result<()> {
    print!(rt; "seed {seed}, cells {width} by {height} by {depth}:")
}

// The size of a load that was made.
fn size(rt: &impl Print, s: Size) -> io::Result<()> {
    println!(rt; " {} rows, {} entries", s.rows, s.entries)
}

// A load, of 4,096 cells at most.
fn show(rt: &impl Print, seed: u64, width: u64, height: u64, depth: u64) -> io::Result<()> {
    let mut offsets = [0u32; 4097];
    let mut columns = [0u32; 28672];
    let mut values = [0.0; 28672];
    title(rt, seed, width, height, depth)?;
    match load(
        seed,
        width,
        height,
        depth,
        &mut offsets,
        &mut columns,
        &mut values,
    ) {
        Ok(s) => {
            size(rt, s)?;
            let matrix = Matrix {
                offsets: &offsets,
                columns: &columns,
                values: &values,
            };
            matrix.rows(rt, s.rows)
        }
        Err(q) => println!(rt; " refused {}", q.number),
    }
}

// The number that decimal digits write; 0 where there is anything else, or one of the last few below 2^64 or above.
fn decimal(digits: &[u8]) -> u64 {
    let mut n: u64 = 0;
    for &c in digits {
        if !c.is_ascii_digit() || n > 1844674407370955160 {
            return 0;
        }
        n = n * 10 + u64::from(c - b'0');
    }
    n
}

// The number that an argument of the program is.
fn argument(rt: &impl Env, i: usize) -> u64 {
    let mut text = [0u8; 20];
    match rt.arg(i, &mut text) {
        Ok(length) => text.get(..length).map_or(0, decimal),
        Err(_) => 0,
    }
}

// Whether the program has an argument of that number. Its own name is number 0.
fn is_given(rt: &impl Env, i: usize) -> bool {
    let mut text = [0u8; 20];
    !matches!(rt.arg(i, &mut text), Err(FillError::NotPresent))
}

fn main(rt: HostRuntime) -> io::Result<()> {
    if is_given(&rt, 4) && !is_given(&rt, 5) {
        let seed = argument(&rt, 1);
        let width = argument(&rt, 2);
        let height = argument(&rt, 3);
        let depth = argument(&rt, 4);
        show(&rt, seed, width, height, depth)
    } else {
        show(&rt, 1, 2, 2, 1)?;
        show(&rt, 1, 3, 3, 3)?;
        show(&rt, 1, 64, 64, 1)
    }
}
