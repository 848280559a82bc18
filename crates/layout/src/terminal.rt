// The last level as the terminal solve takes it (`CoarseSystem` of coarse.rs), and its factor.
ghost use Rattle.std.specs.Prelude.{◌≡◌, length};
ghost use Rattle.layout.specs.Parts.{terminal_in};
ghost use Rattle.layout.specs.TerminalContract.{FactorOk, FactorDone};

use crate::Place;
use cholesky::Terminal;
use refusal::Refusal;

// The terminal solve of so many coupled rows.
pub fn terminal_in(p: Place, coupled: usize) -> Terminal
    ensures { result ≡ terminal_in p coupled }
{
    Terminal {
        rows: p.rows,
        entries: p.entries,
        offsets: p.offsets,
        columns: p.columns,
        values: p.values,
        size: coupled,
        coupled: p.links,
        factor: p.factor,
    }
}

// The floats that only the last level has: no DIC data, and the factor of the coupled rows (`update` of coarse.rs): question 15.
pub fn factor(w: &[u32], f: &mut [f64], p: Place, coupled: usize, level: u64) -> Result<(), Refusal>
    requires { FactorOk w.now (length f.old) p coupled }
    ensures { FactorDone w.now f.old f.new p coupled level result }
{
    let terminal = terminal_in(p, coupled);
    let dic = p.dic;
    let rows = p.rows;
    store::fill(f, dic, rows, 0.0);
    cholesky::cholesky(w, f, terminal, level)
}
