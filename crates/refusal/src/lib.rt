// What a call answers where it refuses: the first of document 01's questions that failed, and where it failed.
#![tactic(auto)]

ghost use Rattle.std.specs.Prelude.{◌≡◌};
ghost use Rattle.refusal.specs.Outcome.{is_refused};

// The question's number, and the level and row where it failed; both are zero where the question names no place. A number and no enum: C has
// it, docs/REFUSALS.md goes by it, and `export` and the printing of a refusal take any.
#[derive(Clone, Copy)]
pub struct Refusal {
    pub number: u64,
    pub level: u64,
    pub row: u64,
}

// Whether a question refused.
pub fn refused(answer: Result<(), Refusal>) -> bool
    ensures { result ≡ is_refused answer }
{
    match answer {
        Ok(()) => false,
        Err(_) => true,
    }
}

// The refusals, each named for what is wrong. A question that names a place has its number alone: the code adds level and row.
pub const TOO_LARGE: Refusal = Refusal {
    number: 1,
    level: 0,
    row: 0,
};

pub const BAD_OFFSETS: Refusal = Refusal {
    number: 2,
    level: 0,
    row: 0,
};

pub const BAD_COLUMNS: Refusal = Refusal {
    number: 3,
    level: 0,
    row: 0,
};

pub const WEIGHT_COUNT: Refusal = Refusal {
    number: 4,
    level: 0,
    row: 0,
};

pub const BAD_WEIGHT: Refusal = Refusal {
    number: 5,
    level: 0,
    row: 0,
};

pub const INVALID_CONTROLS: Refusal = Refusal {
    number: 6,
    level: 0,
    row: 0,
};

pub const NOT_CHOLESKY: Refusal = Refusal {
    number: 7,
    level: 0,
    row: 0,
};

pub const NO_ROWS: Refusal = Refusal {
    number: 8,
    level: 0,
    row: 0,
};

pub const STORE_TOO_SMALL: Refusal = Refusal {
    number: 9,
    level: 0,
    row: 0,
};

pub const NOT_SYMMETRIC: Refusal = Refusal {
    number: 10,
    level: 0,
    row: 0,
};

pub const MISSING_DIAGONAL: u64 = 11;

pub const BAD_DIAGONAL: u64 = 12;

pub const BAD_RECIPROCAL: u64 = 13;

pub const TOO_MANY_COUPLED: Refusal = Refusal {
    number: 14,
    level: 0,
    row: 0,
};

pub const BAD_PIVOT: u64 = 15;

pub const BAD_DIC_PIVOT: u64 = 16;

pub const BAD_DIC_RECIPROCAL: u64 = 17;

pub const BAD_COARSE_VALUE: Refusal = Refusal {
    number: 18,
    level: 0,
    row: 0,
};

pub const UNSOUND_STORES: Refusal = Refusal {
    number: 19,
    level: 0,
    row: 0,
};

pub const WRONG_LENGTH: Refusal = Refusal {
    number: 20,
    level: 0,
    row: 0,
};

pub const BAD_INPUT: Refusal = Refusal {
    number: 21,
    level: 0,
    row: 0,
};

pub const BAD_NORMALIZATION: Refusal = Refusal {
    number: 22,
    level: 0,
    row: 0,
};

pub const BAD_RESIDUAL: Refusal = Refusal {
    number: 23,
    level: 0,
    row: 0,
};

pub const BAD_COARSE_SOLUTION: Refusal = Refusal {
    number: 24,
    level: 0,
    row: 0,
};

pub const BAD_SMOOTHER_OUTPUT: Refusal = Refusal {
    number: 25,
    level: 0,
    row: 0,
};

pub const BAD_CORRECTION_PRODUCT: Refusal = Refusal {
    number: 26,
    level: 0,
    row: 0,
};

pub const BAD_CORRECTION_SCALE: Refusal = Refusal {
    number: 27,
    level: 0,
    row: 0,
};

pub const BAD_DOT_PRODUCT: Refusal = Refusal {
    number: 28,
    level: 0,
    row: 0,
};

pub const ZERO_IMAGE: Refusal = Refusal {
    number: 29,
    level: 0,
    row: 0,
};

pub const BAD_DIRECTION: Refusal = Refusal {
    number: 30,
    level: 0,
    row: 0,
};

pub const OTHER_PATTERN: Refusal = Refusal {
    number: 31,
    level: 0,
    row: 0,
};

pub const BAD_LOAD: Refusal = Refusal {
    number: 35,
    level: 0,
    row: 0,
};

pub const BAD_MATRIX_FILE: Refusal = Refusal {
    number: 38,
    level: 0,
    row: 0,
};

pub const BAD_NUMBER: Refusal = Refusal {
    number: 39,
    level: 0,
    row: 0,
};

pub const UNEQUAL_MIRRORS: Refusal = Refusal {
    number: 40,
    level: 0,
    row: 0,
};
