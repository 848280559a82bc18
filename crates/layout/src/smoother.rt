// The DIC data of a level that is not the last, at its place.
ghost use Rattle.std.specs.Prelude.{length};
ghost use Rattle.dic.specs.Dic.{Settled};
ghost use Rattle.layout.specs.SmootherContract.{SmootherOk, smoother_at};

use crate::Place;
use refusal::Refusal;

// The DIC data of the level, with questions 16 and 17; zeros where its smoother needs none.
pub fn smoother_data(
    w: &[u32],
    f: &mut [f64],
    dic: bool,
    p: Place,
    level: u64,
) -> Result<(), Refusal>
    requires { SmootherOk w.now (length f.old) p }
    ensures { Settled p.dic p.rows (smoother_at dic level w.now f.old p) f.old f.new result }
{
    if dic {
        return dic::update_dic_diagonal(w, f, crate::kernel_in(p), p.dic, level);
    }
    store::fill(f, p.dic, p.rows, 0.0);
    Ok(())
}
