// The timer's state, and its five words in a region.
use dynamics::Previous;

// Which word is which.
pub(crate) const ACC_WORD: usize = 0;

pub(crate) const PREV_T_WORD: usize = 1;

pub(crate) const PREV_U_WORD: usize = 2;

pub(crate) const PREV_RESET_WORD: usize = 3;

pub(crate) const PASSED_WORD: usize = 4;

// How many words its region has.
pub const STATE_LEN: usize = 5;

// The total, and of the previous tick its time, its input and reset, and whether the timer had passed.
#[derive(Clone, Copy)]
pub struct State {
    pub total: f64,
    pub previous: Previous,
    pub input: bool,
    pub reset: bool,
    pub passed: bool,
}
