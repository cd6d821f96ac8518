// The delay's state, and its four words in a region.
use dynamics::Previous;

// Which word is which.
pub(crate) const TIMER_WORD: usize = 0;

pub(crate) const PREV_T_WORD: usize = 1;

pub(crate) const PREV_U_WORD: usize = 2;

pub(crate) const HELD_WORD: usize = 3;

// How many words its region has.
pub const STATE_LEN: usize = 4;

// The timer, and of the previous tick its time, its input and its output.
#[derive(Clone, Copy)]
pub struct State {
    pub timer: f64,
    pub previous: Previous,
    pub input: bool,
    pub held: bool,
}
