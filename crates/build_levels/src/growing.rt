// The level loop of `build` of hierarchy.rs: each level is laid, paired, and either the last or led on to the next.
ghost use Rattle.std.specs.Prelude.{◌≡◌, length};
ghost use Rattle.build_level.specs.LayingContract.{FrontierOk};
ghost use Rattle.build_levels.specs.GrowingContract.{Grown, grow_at};
ghost use Rattle.build_levels.specs.Ahead.{paired_at, Advanced, LeadOk, next_after, charged_of, ChargeOk};

use crate::descent;
use build_level::{Frontier, Growth};
use coarsening::{Merging, Setup};
use layout::Place;
use refusal::Refusal;
use std::ops::ControlFlow;

// Question 9 of the next level: its charge is added up and asked by differences, so that no sum wraps.
fn charged(
    words: usize,
    floats: usize,
    s: Frontier,
    p: Place,
    next: Merging,
) -> Result<Frontier, Refusal>
    requires { ChargeOk words floats s p next.count next.entries }
    ensures { result ≡ charged_of words floats (next_after s p next.count next.entries next.stage) }
{
    let more_words = 5 * next.count + 4 * next.entries + 8;
    let more_floats = 20 * next.count + 4 * next.entries;
    if words - s.words < more_words {
        return Err(refusal::STORE_TOO_SMALL);
    }
    if floats - s.floats < more_floats {
        return Err(refusal::STORE_TOO_SMALL);
    }
    Ok(Frontier {
        rows: next.count,
        entries: next.entries,
        a: p.positions + p.entries,
        b: p.factor,
        words: s.words + more_words,
        floats: s.floats + more_floats,
        level: s.level + 1,
        stage: next.stage,
        more: s.more - 1,
    })
}

// A level that stands at p is the last, at which the levels break off, or its aggregates lead to the next.
fn lead(
    w: &mut [u32],
    f: &mut [f64],
    x: Setup,
    s: Frontier,
    p: Place,
) -> Result<ControlFlow<Growth, Frontier>, Refusal>
    requires { LeadOk w.old (length f.old) x.options x.workspace s p }
    ensures { Advanced w.old w.new f.old f.new x.options x.given x.workspace s (paired_at x.options x.given w.old f.old x.workspace s p) result }
{
    let count = build_level::choose(w, f, x, s, p);
    if count == s.rows {
        let g = build_level::last(w, f, x, s, p)?;
        return Ok(ControlFlow::Break(g));
    }
    let down = descent::descend(w, f, x, s, p, count)?;
    let next = charged(w.len(), f.len(), s, p, down)?;
    Ok(ControlFlow::Continue(next))
}

// The level at the frontier.
fn advance(
    w: &mut [u32],
    f: &mut [f64],
    x: Setup,
    s: Frontier,
) -> Result<ControlFlow<Growth, Frontier>, Refusal>
    requires { FrontierOk w.old (length f.old) x.options x.workspace s }
    ensures { Advanced w.old w.new f.old f.new x.options x.given x.workspace s (grow_at x.options x.given w.old f.old x.workspace s) result }
{
    let faces = build_level::lay(w, f, x, s)?;
    let p = layout::place_of(s.a, s.b, s.rows, s.entries, faces);
    lead(w, f, x, s, p)
}

// The levels from the frontier on.
pub fn grow(w: &mut [u32], f: &mut [f64], x: Setup, s: Frontier) -> Result<Growth, Refusal>
    requires { FrontierOk w.old (length f.old) x.options x.workspace s }
    ensures { Grown w.old w.new f.old f.new x.options x.given x.workspace s result }
{
    let mut at = s;
    loop {
        match advance(w, f, x, at)? {
            ControlFlow::Break(g) => return Ok(g),
            ControlFlow::Continue(n) => at = n,
        }
    }
}
