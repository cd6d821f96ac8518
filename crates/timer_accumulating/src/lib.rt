// `TimerAccumulating` of CDL.Logical: adds up the time that its input is true, until a rising reset clears it.
#![tactic(auto)]

mod state;
mod step;

ghost use Rattle.timer_accumulating.specs.TimerAccumulating.{block, counted, zeros};

use dynamics::{
    Inputs, Previous, Step, SteppedBlock, both_answer, flag_at, previous_at, real_at, store,
    word_of_previous,
};
use reals::{is_finite, word_of, word_of_flag};
pub use state::{STATE_LEN, State};
use state::{ACC_WORD, PASSED_WORD, PREV_RESET_WORD, PREV_T_WORD, PREV_U_WORD};
use step::advance;

// It passes when the total reaches t.
#[derive(Clone, Copy)]
pub struct TimerAccumulating {
    pub t: f64,
}

impl SteppedBlock for TimerAccumulating {
    type State = State;

    ghost block = { block };

    ghost zeros = { zeros };

    ghost counted = { counted };

    fn is_accepted(&self) -> bool {
        is_finite(self.t)
    }

    fn size(&self) -> usize {
        STATE_LEN
    }

    fn initial(&self) -> State {
        State {
            total: 0.0,
            previous: None,
            input: false,
            reset: false,
            passed: self.t <= 0.0,
        }
    }

    #[tactic(auto, unfolding(crate::specs::TimerAccumulating::state_of))]
    fn read(&self, region: &[u64]) -> State {
        State {
            total: real_at(region, ACC_WORD),
            previous: previous_at(region, PREV_T_WORD),
            input: flag_at(region, PREV_U_WORD),
            reset: flag_at(region, PREV_RESET_WORD),
            passed: flag_at(region, PASSED_WORD),
        }
    }

    #[tactic(auto, unfolding(crate::specs::TimerAccumulating::words_of))]
    fn write(&self, region: &mut [u64], s: State) {
        let words = [
            word_of(s.total),
            word_of_previous(s.previous),
            word_of_flag(s.input),
            word_of_flag(s.reset),
            word_of_flag(s.passed),
        ];
        store(region, &words);
    }

    fn previous(&self, s: State) -> Previous {
        s.previous
    }

    fn step(&self, s: State, time: f64, inputs: Inputs) -> Step<State> {
        let after = advance(*self, s, time, inputs);
        Step {
            answer: both_answer(after.total, after.passed),
            after,
        }
    }
}
