// Reals on their own: what an f64 and its stored word mean, and how one is rounded to a whole number.
#![tactic(auto)]

pub mod rounding;
pub mod word;

pub use rounding::{absolute, ceil, floor};
pub use word::{canonical, flag_of, is_finite, real_of, word_of, word_of_flag};
