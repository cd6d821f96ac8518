// `Pid` and `PidWithReset` of CDL.Reals over a lent region: limited P, PI, PD and PID controllers. `with_reset` says which of the two.
#![tactic(auto)]

mod state;

ghost use Rattle.std.specs.Prelude.{◌≡◌};
ghost use Rattle.pid.specs.Pid.{block, counted, heard, zeros};

use controller::Heard;
pub use controller::{ControllerConfig, ControllerType, State};
use dynamics::{Inputs, Previous, Step, SteppedBlock, real_answer};
use reals::{flag_of, real_of};
use state::{size, state_of, write};

// A controller with its settings.
#[derive(Clone, Copy)]
pub struct Controller {
    pub settings: ControllerConfig,
    pub with_reset: bool,
}

impl Controller {
    // What it hears of a tick: without reset no trigger.
    #[tactic(auto, unfolding(crate::specs::Pid::heard))]
    fn heard(&self, inputs: Inputs) -> Heard
        ensures { result ≡ heard self.now.with_reset inputs }
    {
        Heard {
            u_s: real_of(inputs.first),
            u_m: real_of(inputs.second),
            trigger: self.with_reset & flag_of(inputs.third),
        }
    }
}

impl SteppedBlock for Controller {
    type State = State;

    ghost block = { λ c. block c.with_reset c.settings };

    ghost zeros = { zeros };

    ghost counted = { λ c. counted c.settings.controller_type c.with_reset };

    fn is_accepted(&self) -> bool {
        self.settings.accepted()
    }

    fn size(&self) -> usize {
        size(self)
    }

    fn initial(&self) -> State {
        State {
            integrator: self.settings.xi_start,
            previous: None,
            filter: 0.0,
            trigger: false,
        }
    }

    fn read(&self, region: &[u64]) -> State {
        state_of(self, region)
    }

    fn write(&self, region: &mut [u64], s: State) {
        write(self, region, s);
    }

    fn previous(&self, s: State) -> Previous {
        s.previous
    }

    // The output is of the integrator before the tick.
    fn step(&self, s: State, time: f64, inputs: Inputs) -> Step<State> {
        let now = self.heard(inputs);
        let terms = self.settings.current_terms(s, now);
        Step {
            answer: real_answer(terms.y),
            after: self.settings.next_state(s, terms, time, now.trigger),
        }
    }
}
