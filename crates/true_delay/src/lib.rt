// `TrueDelay` of CDL.Logical: a true input passes when it has lasted for the delay, a false one at once.
#![tactic(auto)]

mod state;
mod step;

ghost use Rattle.true_delay.specs.TrueDelay.{block, counted, zeros};

use dynamics::{
    Inputs, Previous, Step, SteppedBlock, boolean_answer, flag_at, previous_at, real_at, store,
    word_of_previous,
};
use reals::{is_finite, word_of, word_of_flag};
pub use state::{STATE_LEN, State};
use state::{HELD_WORD, PREV_T_WORD, PREV_U_WORD, TIMER_WORD};
use step::advance;

// How long a true input waits, and whether one on the first tick waits too.
#[derive(Clone, Copy)]
pub struct TrueDelay {
    pub delay_time: f64,
    pub delay_on_init: bool,
}

impl SteppedBlock for TrueDelay {
    type State = State;

    ghost block = { block };

    ghost zeros = { zeros };

    ghost counted = { counted };

    fn is_accepted(&self) -> bool {
        is_finite(self.delay_time)
    }

    fn size(&self) -> usize {
        STATE_LEN
    }

    fn initial(&self) -> State {
        State {
            timer: 0.0,
            previous: None,
            input: false,
            held: false,
        }
    }

    #[tactic(auto, unfolding(crate::specs::TrueDelay::state_of))]
    fn read(&self, region: &[u64]) -> State {
        State {
            timer: real_at(region, TIMER_WORD),
            previous: previous_at(region, PREV_T_WORD),
            input: flag_at(region, PREV_U_WORD),
            held: flag_at(region, HELD_WORD),
        }
    }

    #[tactic(auto, unfolding(crate::specs::TrueDelay::words_of))]
    fn write(&self, region: &mut [u64], s: State) {
        let words = [
            word_of(s.timer),
            word_of_previous(s.previous),
            word_of_flag(s.input),
            word_of_flag(s.held),
        ];
        store(region, &words);
    }

    fn previous(&self, s: State) -> Previous {
        s.previous
    }

    fn step(&self, s: State, time: f64, inputs: Inputs) -> Step<State> {
        let after = advance(*self, s, time, inputs);
        Step {
            answer: boolean_answer(after.held),
            after,
        }
    }
}
