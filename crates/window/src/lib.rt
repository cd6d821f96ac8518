// A window of time: the ring that its length asks for, and the mean over it.
#![tactic(auto)]

pub mod mean;
pub mod ring;

pub use mean::{Point, denominator, interpolate};
pub use ring::{FRONT_WORDS, RingGeometry, geometry};
