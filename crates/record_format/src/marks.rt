// The marks that records start with.
ghost use Rattle.std.specs.Prelude.{◌≡◌};
ghost use Rattle.record_format.specs.Format.{letters_of, marked};

use crate::bytes::byte_at;

// CO, MX, FW, UP, SO.
#[derive(Clone, Copy)]
pub enum Mark {
    Controls,
    Matrix,
    Weights,
    Update,
    Solve,
}

impl Mark {
    // The two letters of a mark.
    pub fn letters(self) -> [u8; 2]
        ensures { result ≡ letters_of self }
    {
        match self {
            Mark::Controls => *b"CO",
            Mark::Matrix => *b"MX",
            Mark::Weights => *b"FW",
            Mark::Update => *b"UP",
            Mark::Solve => *b"SO",
        }
    }
}

// Whether bytes start with this mark.
pub fn is_marked(b: &[u8], mark: Mark) -> bool
    ensures { result ≡ marked mark b.now }
{
    let [first, second] = mark.letters();
    (byte_at(b, 0) == u64::from(first)) & (byte_at(b, 1) == u64::from(second))
}
