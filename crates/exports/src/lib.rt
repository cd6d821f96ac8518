// What the library for C and Rust does (`exports_c` has its names): the block by its number, settings, times and inputs as words, so that a
// NaN has one pattern.
#![tactic(auto)]

pub mod boundary;
pub mod calls;
pub mod leaves;
pub mod sheets;
pub mod states;
