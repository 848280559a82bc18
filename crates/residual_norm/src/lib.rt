// How a solve measures its residual, and the factor that it divides the measure by.
#![tactic(auto)]

pub mod measure;
pub mod normalization;
mod rows;
