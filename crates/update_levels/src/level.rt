// One level of `update` of hierarchy.rs: new numbers for it, from its values, and the values of the next. The values of the finest level are given in
// a slice of their own and those of the others stand in the store: `given` is None where they do, and the contracts read them by `unwrap_or`.
// That there are as many as entries, and `FacesReady`, stand in each contract that takes them: they tie values, words, floats and a place, and no one
// value has all of these.
ghost use Rattle.std.specs.Prelude.{true, false, ◌≤◌, length, option_copied, unwrap_or};
ghost use Rattle.std.specs.Option.{ForSome};
ghost use Rattle.store.specs.Region.{part, Wrote};
ghost use Rattle.coefficients.specs.Contract.{Updated};
ghost use Rattle.galerkin.specs.Values.{sums_of};
ghost use Rattle.layout.specs.Parts.{kernel_in};
ghost use Rattle.update_levels.specs.Level.{Under, Always, CoefficientsOk, FacesReady, coefficients_asked};
ghost use Rattle.update_levels.specs.Level.{LevelOk, LevelDone, CoarseOk, CoarseDone};

use crate::diagonals;
use layout::Place;
use refusal::Refusal;

// The coefficients of the level, from its values: 12 and 13, once 11 has passed. Only stores that no build wrote can fail 11. Where the values are
// given, those of the faces stand at their place already.
fn coefficients(
    w: &[u32],
    given: Option<&[f64]>,
    f: &mut [f64],
    p: Place,
    level: u64,
) -> Result<(), Refusal>
    requires coefficients_ok { CoefficientsOk w.now (length f.old) p }
    requires many { ForSome (option_copied given) (λ values. p.entries ≤ length values) }
    requires faces_ready { ForSome (option_copied given) (λ values. FacesReady w.now values f.old p) }
    ensures { Updated w.now (kernel_in p) (coefficients_asked level w.now (unwrap_or (option_copied given.entry) (part p.values p.entries f.old)) p) f.old f.new result }
{
    if !diagonals::all_stand(w, p) {
        return diagonals::rows_stand(w, p, level);
    }
    let s = layout::kernel_in(p);
    let e = layout::entries_in(p);
    match given {
        Some(values) => coefficients::update_given(w, values, f, s, e, level),
        None => coefficients::update(w, f, s, e, level),
    }
}

// The numbers of the level at p, which is not the last, from its values: 11, 12 and 13, then 16 and 17.
pub fn inner_level(
    w: &[u32],
    given: Option<&[f64]>,
    f: &mut [f64],
    dic: bool,
    p: Place,
    level: u64,
) -> Result<(), Refusal>
    requires level_ok { LevelOk w.now (length f.old) p 0 }
    requires many { ForSome (option_copied given) (λ values. p.entries ≤ length values) }
    requires faces_ready { ForSome (option_copied given) (λ values. FacesReady w.now values f.old p) }
    ensures { Under dic (λ o. LevelDone w.now (unwrap_or (option_copied given.entry) (part p.values p.entries f.old)) f.old f.new o p false 0 level result) }
{
    coefficients(w, given, f, p, level)?;
    layout::smoother_data(w, f, dic, p, level)
}

// The numbers of the last level, which has so many coupled rows, from its values, which stand in the store: 11, 12 and 13, then 15.
pub fn last_level(
    w: &[u32],
    f: &mut [f64],
    p: Place,
    coupled: usize,
    level: u64,
) -> Result<(), Refusal>
    requires { LevelOk w.now (length f.old) p coupled }
    ensures { Always (λ o. LevelDone w.now (part p.values p.entries f.old) f.old f.new o p true coupled level result) }
{
    coefficients(w, None, f, p, level)?;
    layout::factor(w, f, p, coupled, level)
}

// The sums of the values of the level at p, where those of the level at t stand.
fn sum_values(w: &[u32], given: Option<&[f64]>, f: &mut [f64], p: Place, t: Place)
    requires coarse_ok { CoarseOk w.now (length f.old) p t }
    requires many { ForSome (option_copied given) (λ values. p.entries ≤ length values) }
    ensures { Wrote t.values t.entries
        (sums_of t.entries p.entries (part p.positions p.entries w.now) (unwrap_or (option_copied given.entry) (part p.values p.entries f.old)))
        f.old f.new }
{
    match given {
        Some(values) => {
            galerkin::sum_given(w, values, f, p.entries, p.positions, t.entries, t.values);
        }
        None => {
            galerkin::sum_entries(w, f, p.entries, p.positions, p.values, t.entries, t.values);
        }
    }
}

// The values of the level at t, summed from those of the level at p, then half plus half: question 18.
pub fn coarse_values(w: &[u32], given: Option<&[f64]>, f: &mut [f64], p: Place, t: Place) -> bool
    requires coarse_ok { CoarseOk w.now (length f.old) p t }
    requires many { ForSome (option_copied given) (λ values. p.entries ≤ length values) }
    ensures { CoarseDone w.now (unwrap_or (option_copied given.entry) (part p.values p.entries f.old)) f.old f.new p t result }
{
    sum_values(w, given, f, p, t);
    galerkin::symmetrize(w, f, t.faces, t.uppers, t.lowers, t.entries, t.values);
    vector::all_finite(f, t.entries, t.values)
}
