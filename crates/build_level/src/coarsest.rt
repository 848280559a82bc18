// The last level of `build` of hierarchy.rs: its coupled rows and their factor (`CoarseSystem::new` of coarse.rs).
ghost use Rattle.std.specs.Prelude.{◌≡◌, length};
ghost use Rattle.faces.specs.Faces.{coupled_count_of};
ghost use Rattle.faces.specs.Contract.{pattern_at, CoupledOk};
ghost use Rattle.layout.specs.Parts.{faces_in};
ghost use Rattle.build_level.specs.Steps.{MarkOk, Marked, ListOk, Listed};
ghost use Rattle.build_level.specs.CoarsestContract.{LastOk, Ended};

use crate::laying::Frontier;
use coarsening::Setup;
use layout::Place;
use refusal::Refusal;

// The levels made, and where the floats of the last one end.
#[derive(Clone, Copy)]
pub struct Growth {
    pub levels: u64,
    pub end: usize,
}

// The number of coupled rows of the level at p.
fn coupled_in(w: &[u32], p: Place) -> usize
    requires { CoupledOk w.now (faces_in p) }
    ensures { result ≡ coupled_count_of (pattern_at w.now (faces_in p)) }
{
    let level = layout::faces_in(p);
    faces::coupled_count(w, level)
}

// The header at a says that its level is the last, with so many coupled rows.
fn mark(w: &mut [u32], a: usize, coupled: usize)
    requires { MarkOk (length w.old) a coupled }
    ensures { Marked w.old w.new a coupled }
{
    w[a + 1] = 1;
    w[a + 2] = coupled as u32;
}

// The words that only the last level has: its header, and the coupled rows in place of aggregates.
fn list_coupled(w: &mut [u32], a: usize, p: Place, coupled: usize)
    requires { ListOk w.old a p coupled }
    ensures { Listed w.old w.new a p coupled }
{
    let level = layout::faces_in(p);
    let links = p.links;
    mark(w, a, coupled);
    faces::coupled_rows(w, level, links);
}

// The last level, which stands at p with its coefficients: question 14, its coupled rows, and question 15.
pub fn last(
    w: &mut [u32],
    f: &mut [f64],
    x: Setup,
    s: Frontier,
    p: Place,
) -> Result<Growth, Refusal>
    requires { LastOk w.old (length f.old) x.options x.workspace s p }
    ensures { Ended w.old w.new f.old f.new x.options x.given x.workspace s p result }
{
    let coupled = coupled_in(w, p);
    if coupled as u64 > x.options.coarsest_cells {
        return Err(refusal::TOO_MANY_COUPLED);
    }
    list_coupled(w, s.a, p, coupled);
    layout::factor(w, f, p, coupled, s.level)?;
    let size = cholesky::triangle(coupled);
    Ok(Growth {
        levels: s.level + 1,
        end: p.factor + size,
    })
}
