// `LogicalVariablePulse` of CDL.Logical: in each period the output is true for the share u of it, and each of its two values lasts for a least time.
#![tactic(auto)]

mod state;
mod step;

ghost use Rattle.logical_variable_pulse.specs.LogicalVariablePulse.{block, counted, zeros};

use dynamics::{
    Inputs, Previous, Step, SteppedBlock, boolean_answer, flag_at, previous_at, real_at, store,
    word_of_previous,
};
use reals::{is_finite, word_of, word_of_flag};
pub use state::{STATE_LEN, State};
use state::{HELD_WORD, PREV_T_WORD, SAMPLED_U_WORD, T0_WORD, TIMER_WORD};
use step::advance;

// How long a period lasts, the change of the input that begins a cycle anew, and how long each value of the output lasts at least.
#[derive(Clone, Copy)]
pub struct LogicalVariablePulse {
    pub period: f64,
    pub delta_u: f64,
    pub min_true_false_hold: f64,
}

// Within these limits the settings are accepted: a change from 0.01 to 0.5, a hold of at least one second.
const MIN_DELTA_U: f64 = 0.01;

const MAX_DELTA_U: f64 = 0.5;

const MIN_HOLD: f64 = 1.0;

impl SteppedBlock for LogicalVariablePulse {
    type State = State;

    ghost block = { block };

    ghost zeros = { zeros };

    ghost counted = { counted };

    fn is_accepted(&self) -> bool {
        let are_finite = is_finite(self.period)
            & is_finite(self.delta_u)
            & is_finite(self.min_true_false_hold);
        let within = (self.delta_u >= MIN_DELTA_U)
            & (self.delta_u <= MAX_DELTA_U)
            & (self.min_true_false_hold >= MIN_HOLD);
        are_finite & within
    }

    fn size(&self) -> usize {
        STATE_LEN
    }

    fn initial(&self) -> State {
        State {
            sampled_u: 0.0,
            t0: 0.0,
            held: false,
            timer: 0.0,
            previous: None,
        }
    }

    #[tactic(auto, unfolding(crate::specs::LogicalVariablePulse::state_of))]
    fn read(&self, region: &[u64]) -> State {
        State {
            sampled_u: real_at(region, SAMPLED_U_WORD),
            t0: real_at(region, T0_WORD),
            held: flag_at(region, HELD_WORD),
            timer: real_at(region, TIMER_WORD),
            previous: previous_at(region, PREV_T_WORD),
        }
    }

    #[tactic(auto, unfolding(crate::specs::LogicalVariablePulse::words_of))]
    fn write(&self, region: &mut [u64], s: State) {
        let words = [
            word_of(s.sampled_u),
            word_of(s.t0),
            word_of_flag(s.held),
            word_of(s.timer),
            word_of_previous(s.previous),
        ];
        store(region, &words);
    }

    fn previous(&self, s: State) -> Previous {
        s.previous
    }

    fn step(&self, s: State, time: f64, inputs: Inputs) -> Step<State> {
        let after = advance(*self, s, time, inputs);
        Step {
            answer: boolean_answer(after.held),
            after,
        }
    }
}
