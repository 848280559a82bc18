// What programs share that replay lists of calls: numbers out of the input, answers counted by their kinds, and checksums of what
// calls leave in the stores.
#![tactic(auto)]

ghost use Rattle.std.specs.Prelude.{◌≡◌, take};

pub mod calls;
pub mod kinds;
pub mod lent;
pub mod reading;
pub mod rebuild;
pub mod source;
pub mod stores;

pub use reading::Reader;
pub use rebuild::from_text;
pub use source::{Matrix, Source};
pub use stores::Stores;

// The first elements of a slice, so many or all.
pub fn first<T>(s: &[T], n: usize) -> &[T]
    ensures { result.now ≡ take n s.now }
{
    &s[..n.min(s.len())]
}
