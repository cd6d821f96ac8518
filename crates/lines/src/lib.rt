// The lines that soak reads: what the first line and a later line say.
#![tactic(auto)]

mod first;
mod later;
mod values;

pub use first::first_line;
pub use later::later_line;
