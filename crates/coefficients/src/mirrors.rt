// Question 10's values: those of mirrored entries agree (`is_symmetric` of matrix.rs).
ghost use Rattle.std.specs.Prelude.{◌≡◌, ◌+◌, ◌≤◌, length};
ghost use Rattle.store.specs.Region.{part};
ghost use Rattle.coefficients.specs.Mirrors.{pair_agrees, mirrors_agree};
ghost use Rattle.coefficients.specs.Contract.{MirrorsOk, Taken};

// Both finite, and apart by at most 1e-12. Where one is a NaN or infinite, so is the difference, and the comparison fails: it tells all three.
fn pair_agrees(a: f64, b: f64) -> bool
    ensures { result ≡ pair_agrees a b }
{
    float::abs(a - b) <= 1.0e-12
}

// Whether the values at each face's two positions agree. No branch leaves the loop: a symmetric image passes as a whole.
pub fn mirrors_agree(w: &[u32], values: &[f64], faces: usize, upper: usize, lower: usize) -> bool
    requires { MirrorsOk w.now (length values.now) faces upper lower }
    ensures { result ≡ mirrors_agree faces (part upper faces w.now) (part lower faces w.now) values.now }
{
    let count = values.len();
    let mut ok = true;
    for face in 0..faces {
        let a = store::index_at(w, upper, face, count);
        let b = store::index_at(w, lower, face, count);
        ok = ok & pair_agrees(values[a], values[b]);
    }
    ok
}

// The upper value of each face, copied to `to`, and whether the values at each face's two positions agree: who asks that and needs the
// values of the faces reads them once. No branch leaves the loop.
pub fn take_faces(
    w: &[u32],
    values: &[f64],
    f: &mut [f64],
    faces: usize,
    upper: usize,
    lower: usize,
    to: usize,
) -> bool
    requires mirrors_ok { MirrorsOk w.now (length values.now) faces upper lower }
    requires faces_in_bounds { to + faces ≤ length f.old }
    ensures { Taken w.now values.now f.old f.new faces upper lower to result }
{
    let count = values.len();
    let mut ok = true;
    for face in 0..faces {
        let a = store::index_at(w, upper, face, count);
        let b = store::index_at(w, lower, face, count);
        let v = values[a];
        ok = ok & pair_agrees(v, values[b]);
        f[to + face] = v;
    }
    ok
}
