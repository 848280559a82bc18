// The pattern part of a face-addressed matrix: its faces, mirrors and diagonal entries, and its coupled rows.
#![tactic(auto)]

pub mod coupled;
pub mod diagonals;
pub mod faces;
pub mod mirrors;

pub use coupled::{coupled_count, coupled_rows};
pub use faces::{Faces, face_offsets, fill_faces};
