// The pulse's state, and its five words in a region.
use dynamics::Previous;

// Which word is which.
pub(crate) const SAMPLED_U_WORD: usize = 0;

pub(crate) const T0_WORD: usize = 1;

pub(crate) const HELD_WORD: usize = 2;

pub(crate) const TIMER_WORD: usize = 3;

pub(crate) const PREV_T_WORD: usize = 4;

// How many words its region has.
pub const STATE_LEN: usize = 5;

// The input that was sampled last, when the cycle began, the held output and how long it has lasted, and the time of the previous tick.
#[derive(Clone, Copy)]
pub struct State {
    pub sampled_u: f64,
    pub t0: f64,
    pub held: bool,
    pub timer: f64,
    pub previous: Previous,
}
