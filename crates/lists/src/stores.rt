// What calls are lent, and what they leave in the stores: where the levels of a build end, and the checksums of a list.
ghost use Rattle.std.specs.Prelude.{◌≤◌};
ghost use Rattle.store.specs.Region.{Wrote};
ghost use Rattle.store.specs.Vector.{filled};

use crate::reading::Number;
use crate::source::{Matrix, Source};
use crate::{calls, first};
use options::Handle;
use refusal::Refusal;
use solver::{LinearSolveReport, LinearSolverOptions};

// The sum of the numbers so far and the sum of these sums, modulo 2^64: it tells numbers that have changed places apart.
#[derive(Clone, Copy)]
pub struct Sums {
    pub sum: u64,
    pub total: u64,
}

impl Sums {
    const NONE: Sums = Sums { sum: 0, total: 0 };

    // With one number more.
    fn and(self, number: u64) -> Sums {
        let sum = self.sum.wrapping_add(number);
        Sums {
            sum,
            total: self.total.wrapping_add(sum),
        }
    }

    // With numbers, words or floats more.
    fn and_all<T: Number>(self, all: &[T]) -> Sums {
        all.iter().fold(self, |c, x| c.and(x.bits()))
    }
}

// The checksum of numbers, words or floats.
pub fn checksum<T: Number>(all: &[T]) -> u64 {
    Sums::NONE.and_all(all).total
}

// How much of the two stores is meant: so many words and so many floats.
#[derive(Clone, Copy)]
pub struct Extent {
    pub words: usize,
    pub floats: usize,
}

impl Extent {
    pub const NONE: Extent = Extent {
        words: 0,
        floats: 0,
    };
}

// What each word, float and number of the stores holds before a build.
#[derive(Clone, Copy)]
pub struct Noise {
    pub word: u32,
    pub float: f64,
    pub number: u64,
}

impl Noise {
    pub const LOUD: Noise = Noise {
        word: 0xa5a5_a5a5,
        float: -1.5e99,
        number: 0xa5a5_a5a5_a5a5_a5a5,
    };
}

// The two stores and the statistics of a program, and how much of each its calls are lent, where there is so much.
#[derive(Drop)]
pub struct Stores {
    pub words: [u32; 8192],
    pub floats: [f64; 8192],
    pub statistics: [u64; 640],
    pub lent: Extent,
    pub counters: usize,
}

impl Stores {
    // Full of noise, so that a call that reads what it was not given shows.
    pub fn noise() -> Stores {
        Stores {
            words: [Noise::LOUD.word; 8192],
            floats: [Noise::LOUD.float; 8192],
            statistics: [Noise::LOUD.number; 640],
            lent: Extent::NONE,
            counters: 0,
        }
    }

    // Full of noise once more. A program keeps its stores from record to record and fills them in place: a new value is copied, which takes
    // as long as a small build.
    pub fn fill(&mut self, noise: Noise)
        ensures words { Wrote 0 8192 (filled 8192 noise.word) self.old.words self.new.words }
        ensures floats { Wrote 0 8192 (filled 8192 noise.float) self.old.floats self.new.floats }
        ensures statistics { Wrote 0 640 (filled 640 noise.number) self.old.statistics self.new.statistics }
    {
        store::fill(&mut self.words, 0, 8192, noise.word);
        store::fill(&mut self.floats, 0, 8192, noise.float);
        store::fill(&mut self.statistics, 0, 640, noise.number);
    }

    // The statistics that are lent.
    pub fn told(&self) -> &[u64] {
        first(&self.statistics, self.counters)
    }

    // The checksum of so much of the stores, the words first.
    pub fn checksum(&self, extent: Extent) -> u64 {
        Sums::NONE
            .and_all(first(&self.words, extent.words))
            .and_all(first(&self.floats, extent.floats))
            .total
    }

    // The three calls, over as much as is lent. Each cuts its parts itself: with a struct of `&mut` slices that hands out its first parts the
    // loans did not prove.
    pub fn build(&mut self, source: Source) -> Result<Handle, Refusal> {
        let a = self.lent.words.min(8192);
        let b = self.lent.floats.min(8192);
        let c = self.counters.min(640);
        let words = &mut self.words[..];
        let floats = &mut self.floats[..];
        let statistics = &mut self.statistics[..];
        calls::new(
            source,
            &mut words[..a],
            &mut floats[..b],
            &mut statistics[..c],
        )
    }

    pub fn update(&mut self, handle: Handle, matrix: Matrix) -> Result<(), Refusal> {
        let a = self.lent.words.min(8192);
        let b = self.lent.floats.min(8192);
        let c = self.counters.min(640);
        let words = &self.words[..];
        let floats = &mut self.floats[..];
        let statistics = &self.statistics[..];
        calls::update_values(
            handle,
            matrix,
            &words[..a],
            &mut floats[..b],
            &statistics[..c],
        )
    }

    pub fn solve(
        &mut self,
        handle: Handle,
        rhs: &[f64],
        x: &mut [f64],
        options: LinearSolverOptions,
    ) -> Result<LinearSolveReport, Refusal> {
        let a = self.lent.words.min(8192);
        let b = self.lent.floats.min(8192);
        let c = self.counters.min(640);
        let words = &self.words[..];
        let floats = &mut self.floats[..];
        let statistics = &mut self.statistics[..];
        calls::solve(
            handle,
            &words[..a],
            &mut floats[..b],
            &mut statistics[..c],
            rhs,
            x,
            options,
        )
    }
}

// The sum of the numbers, modulo 2^64.
pub fn sum(all: &[u64]) -> u64 {
    all.iter().fold(0, |sum: u64, &n| sum.wrapping_add(n))
}

// The word at a place; zero outside of the store.
fn word(w: &[u32], at: usize) -> u32 {
    w.get(at).copied().unwrap_or(0)
}

// How many floats a packed triangle of n rows has; a factor has at most 256.
fn triangle(n: u32) -> usize
    ensures { result ≤ 65536 }
{
    let n = store::wide(n.min(256));
    n * (n + 1) / 2
}

// Where the level ends whose words and floats start where `from` ends, as crates/layout has it.
fn level_end(w: &[u32], from: Extent) -> Extent {
    let a = from.words.min(1 << 40);
    let b = from.floats.min(1 << 40);
    let rows = store::wide(word(w, a));
    let entries = store::wide(word(w, a + 3 + rows));
    let faces = store::wide(word(w, a + 4 + 2 * rows + entries));
    let links = a + 5 + 3 * rows + entries + 3 * faces;
    let factor = b + entries + faces + 3 * rows;
    if word(w, a + 1) == 1 {
        let coupled = word(w, a + 2);
        return Extent {
            words: links + store::wide(coupled),
            floats: factor + triangle(coupled),
        };
    }
    Extent {
        words: links + rows + entries,
        floats: factor,
    }
}

// Where a hierarchy of so many levels ends, with the row sums of the finest one after its floats.
pub fn view_end(w: &[u32], levels: u64) -> Extent {
    let mut end = Extent::NONE;
    for _ in 0..levels {
        end = level_end(w, end);
    }
    Extent {
        words: end.words,
        floats: end.floats.min(1 << 40) + store::wide(word(w, 0)),
    }
}
