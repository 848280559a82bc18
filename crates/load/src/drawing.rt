// The draws of a seed.
ghost use Rattle.std.specs.Prelude.{◌≡◌};
ghost use Rattle.load.specs.Draw.{next_of};
ghost use Rattle.load.specs.Steps.{Drew, DrewAll};

use crate::cells::Faces;

// The state after a draw, and the conductance of its face; 0 where there is no face.
#[derive(Clone, Copy)]
pub struct Drawn {
    pub state: u64,
    pub conductance: u32,
}

// The state after the next draw: bits beyond 64 fall off.
pub fn next(s: u64) -> u64
    ensures { result ≡ next_of s }
{
    let a = s ^ (s << 13);
    let b = a ^ (a >> 7);
    b ^ (b << 17)
}

// A draw for a face, where there is one. The seed is added to the state modulo 2^64.
pub fn draw(face: bool, seed: u64, s: u64) -> Drawn
    ensures { Drew face seed s result }
{
    if face {
        let state = next(s);
        let drawn = state.wrapping_add(seed);
        Drawn {
            state,
            conductance: (1 + drawn % 1024) as u32,
        }
    } else {
        Drawn {
            state: s,
            conductance: 0,
        }
    }
}

// The state after the draws of a cell, and the conductances of its faces ahead.
#[derive(Clone, Copy)]
pub struct Draws {
    pub state: u64,
    pub right: u32,
    pub down: u32,
    pub deeper: u32,
}

// The draws of a cell: right, then down, then deeper.
pub fn draw_all(f: Faces, seed: u64, s: u64) -> Draws
    ensures { DrewAll f seed s result }
{
    let right = draw(f.right, seed, s);
    let down = draw(f.down, seed, right.state);
    let deeper = draw(f.deeper, seed, down.state);
    Draws {
        state: deeper.state,
        right: right.conductance,
        down: down.conductance,
        deeper: deeper.conductance,
    }
}
