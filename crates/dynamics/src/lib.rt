// What every block shares: the previous time, the small steps, what a call brings and answers, a region's words, and the calls.
#![tactic(auto)]

pub mod call;
pub mod control;
pub mod leaf;
pub mod previous;
pub mod refusal;
pub mod region;
pub mod stepped;

pub use call::{
    Inputs, Reply, boolean_answer, both_answer, handed_out, real_answer, tick_answer,
    warning_answer,
};
pub use control::ControlBlock;
pub use leaf::{
    Timed, first_order_filter_implicit, forward_euler_accumulate, is_rising, positive_duration,
    raised_to,
};
pub use previous::{
    PREV_T_UNSET, Previous, is_first_tick, previous_of, previous_sound, runs_back, tick_dt,
    word_of_previous,
};
pub use refusal::{Refusal, number_of};
pub use region::{clear, flag_at, previous_at, real_at, store, word_at};
pub use stepped::{Step, SteppedBlock};
