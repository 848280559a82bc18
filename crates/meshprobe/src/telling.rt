// Answers as numbers, for exports: what a verdict, a refusal and a product are told as. How long the slices are that answers are written
// to, C alone knows, so that each function requires it.
ghost use Rattle.std.specs.Prelude.{◌≡◌, ◌≤◌, length, set};
ghost use Rattle.meshprobe.specs.Telling.{flag, flag_of, written_of, Told};

use refusal::Refusal;

// Yes is 1, no is 0: one call of the library, whose answer stands here as `flag`, which the clauses of exports cite.
pub fn number(yes: bool) -> u8
    ensures { result ≡ flag yes }
{
    u8::from(yes)
}

// The number of a refusal; its level and its row stand at `place`.
fn refuse(refusal: Refusal, place: &mut [u64]) -> u64
    requires { 2 ≤ length place.old }
    ensures value { result ≡ refusal.number }
    ensures place_after { place.new ≡ set (set place.old 0 refusal.level) 1 refusal.row }
{
    place[0] = refusal.level;
    place[1] = refusal.row;
    refusal.number
}

// Zero where it passed.
pub fn answer(verdict: Result<(), Refusal>, place: &mut [u64]) -> u64
    requires { 2 ≤ length place.old }
    ensures { Told verdict place.old place.new result }
{
    match verdict {
        Ok(()) => 0,
        Err(refusal) => refuse(refusal, place),
    }
}

// A finite product stands at the front of `out`; whether there was one.
pub fn tell(product: Option<f64>, out: &mut [f64]) -> u8
    requires { 1 ≤ length out.old }
    ensures value { result ≡ flag_of product }
    ensures out_after { out.new ≡ written_of product out.old }
{
    match product {
        Some(value) => {
            out[0] = value;
            1
        }
        None => 0,
    }
}
