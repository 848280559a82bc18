// The loop over the levels of `update` of hierarchy.rs: new numbers for each level in turn, and the values of the next.
ghost use Rattle.std.specs.Prelude.{◌-◌, ◌≤◌, length, option_copied, unwrap_or};
ghost use Rattle.std.specs.Option.{ForSome};
ghost use Rattle.store.specs.Region.{part};
ghost use Rattle.update_levels.specs.Level.{Under, FacesReady};
ghost use Rattle.layout.specs.Layout.{locate};
ghost use Rattle.update_levels.specs.Steps.{TurnOk, Turned, RestOk, StartOk, Renewed};

use crate::level;
use layout::Place;
use refusal::Refusal;

// A level that is not the last, at p, and the values of the next, at t: question 18. Only the finest level's values are given.
fn turn(
    w: &[u32],
    given: Option<&[f64]>,
    f: &mut [f64],
    dic: bool,
    p: Place,
    t: Place,
    level: u64,
) -> Result<(), Refusal>
    requires turn_ok { TurnOk w.now (length f.old) p t }
    requires many { ForSome (option_copied given) (λ values. p.entries ≤ length values) }
    requires faces_ready { ForSome (option_copied given) (λ values. FacesReady w.now values f.old p) }
    ensures { Under dic (λ o. Turned w.now (unwrap_or (option_copied given.entry) (part p.values p.entries f.old)) f.old f.new o p t level result) }
{
    level::inner_level(w, given, f, dic, p, level)?;
    if !level::coarse_values(w, given, f, p, t) {
        return Err(refusal::BAD_COARSE_VALUE);
    }
    Ok(())
}

// The levels from `first` on, which stands at p with its values. The words of the last level tell its coupled rows.
fn renew_rest(
    w: &[u32],
    f: &mut [f64],
    dic: bool,
    levels: u64,
    first: u64,
    start: usize,
    q: Place,
) -> Result<(), Refusal>
    requires { RestOk w.now (length f.old) levels first start q }
    ensures { Under dic (λ o. Renewed o (levels - first) first w.now (part q.values q.entries f.old) f.old f.new start q.values result) }
{
    let mut level = first;
    let mut a = start;
    let mut p = q;
    // A while: three places walk together, and the number of the last level is needed behind the loop.
    while level + 1 < levels {
        a = layout::words_end(w, a);
        let t = layout::place_at(w, a, p.factor);
        turn(w, None, f, dic, p, t, level)?;
        p = t;
        level += 1;
    }
    let coupled = store::wide(w[a + 2]);
    level::last_level(w, f, p, coupled, level)
}

// So many levels, whose floats start at `image`, from the values of the finest, which are given; `dic` tells whether the smoother needs
// DIC data. The finest level reads them where they are, and its coefficients stand there already; only where it is the last, which a
// factor is made of, they are copied.
pub fn renew(
    w: &[u32],
    given: &[f64],
    f: &mut [f64],
    dic: bool,
    levels: u64,
    image: usize,
) -> Result<(), Refusal>
    requires start_ok { StartOk w.now (length f.old) (length given.now) levels image }
    requires faces_ready { FacesReady w.now given.now f.old (locate w.now 0 image) }
    ensures { Under dic (λ o. Renewed o levels 0 w.now given.now f.old f.new 0 image result) }
{
    let p = layout::place_at(w, 0, image);
    if levels < 2 {
        store::load(f, given, image);
        return renew_rest(w, f, dic, levels, 0, 0, p);
    }
    let a = layout::words_end(w, 0);
    let t = layout::place_at(w, a, p.factor);
    turn(w, Some(given), f, dic, p, t, 0)?;
    renew_rest(w, f, dic, levels, 1, a, t)
}
