// A decoded state in words.
ghost use Rattle.std.specs.Prelude.{◌≡◌};
ghost use Rattle.exports.specs.Boundary.{controller_words, average_words, accumulating_words, delay_words, hold_words, pulse_words, state_words, decoded_words, no_state};

use blocks::State;
use dynamics::{Refusal, word_of_previous};
use reals::{word_of, word_of_flag};

// The refusal number, and the state's values in the order of its record, zeros after them. With a refusal all are 0.
#[repr(C)]
#[derive(Clone, Copy)]
pub struct StateWords {
    pub refusal: u64,
    pub first: u64,
    pub second: u64,
    pub third: u64,
    pub fourth: u64,
    pub fifth: u64,
    pub sixth: u64,
}

// No state, and why.
pub fn no_state(refusal: u64) -> StateWords
    ensures { result ≡ no_state refusal }
{
    StateWords {
        refusal,
        first: 0,
        second: 0,
        third: 0,
        fourth: 0,
        fifth: 0,
        sixth: 0,
    }
}

impl From<controller::State> for StateWords {
    ghost from_gives = { λ s w. w ≡ controller_words s };

    fn from(s: controller::State) -> StateWords {
        StateWords {
            first: word_of(s.integrator),
            second: word_of_previous(s.previous),
            third: word_of(s.filter),
            fourth: word_of_flag(s.trigger),
            ..no_state(0)
        }
    }
}

impl From<moving_average::State> for StateWords {
    ghost from_gives = { λ s w. w ≡ average_words s };

    fn from(s: moving_average::State) -> StateWords {
        StateWords {
            refusal: 0,
            first: word_of(s.mu),
            second: word_of(s.t_start),
            third: word_of_previous(s.previous),
            fourth: s.head as u64,
            fifth: s.count as u64,
            sixth: word_of_flag(s.coalesced),
        }
    }
}

impl From<timer_accumulating::State> for StateWords {
    ghost from_gives = { λ s w. w ≡ accumulating_words s };

    fn from(s: timer_accumulating::State) -> StateWords {
        StateWords {
            first: word_of(s.total),
            second: word_of_previous(s.previous),
            third: word_of_flag(s.input),
            fourth: word_of_flag(s.reset),
            fifth: word_of_flag(s.passed),
            ..no_state(0)
        }
    }
}

impl From<true_delay::State> for StateWords {
    ghost from_gives = { λ s w. w ≡ delay_words s };

    fn from(s: true_delay::State) -> StateWords {
        StateWords {
            first: word_of(s.timer),
            second: word_of_previous(s.previous),
            third: word_of_flag(s.input),
            fourth: word_of_flag(s.held),
            ..no_state(0)
        }
    }
}

impl From<hold::State> for StateWords {
    ghost from_gives = { λ s w. w ≡ hold_words s };

    fn from(s: hold::State) -> StateWords {
        StateWords {
            first: word_of_flag(s.held),
            second: word_of(s.timer),
            third: word_of_previous(s.previous),
            ..no_state(0)
        }
    }
}

impl From<logical_variable_pulse::State> for StateWords {
    ghost from_gives = { λ s w. w ≡ pulse_words s };

    fn from(s: logical_variable_pulse::State) -> StateWords {
        StateWords {
            first: word_of(s.sampled_u),
            second: word_of(s.t0),
            third: word_of_flag(s.held),
            fourth: word_of(s.timer),
            fifth: word_of_previous(s.previous),
            ..no_state(0)
        }
    }
}

impl From<State> for StateWords {
    ghost from_gives = { λ s w. w ≡ state_words s };

    fn from(state: State) -> StateWords {
        match state {
            State::Controller(s) => s.into(),
            State::MovingAverage(s) => s.into(),
            State::TimerAccumulating(s) => s.into(),
            State::TrueDelay(s) => s.into(),
            State::Hold(s) => s.into(),
            State::LogicalVariablePulse(s) => s.into(),
        }
    }
}

// What decoding says, in words.
pub fn decoded_words(d: Result<State, Refusal>) -> StateWords
    ensures { result ≡ decoded_words d }
{
    match d {
        Ok(s) => s.into(),
        Err(refusal) => no_state(refusal.into()),
    }
}
