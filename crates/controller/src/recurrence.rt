// One tick of the controller: its terms, and the state after it.
ghost use Rattle.std.specs.Prelude.{◌≡◌};
ghost use Rattle.controller.specs.Recurrence.{error, terms_of, state_after};

use crate::config::{ControllerConfig, guarded_positive};
use dynamics::{Previous, tick_dt};

// What a controller remembers between two ticks. A part that its type lacks is 0.0, unset or false.
#[derive(Clone, Copy)]
pub struct State {
    pub integrator: f64,
    pub previous: Previous,
    pub filter: f64,
    pub trigger: bool,
}

// What it hears of a tick: setpoint, measurement and trigger.
#[derive(Clone, Copy)]
pub struct Heard {
    pub u_s: f64,
    pub u_m: f64,
    pub trigger: bool,
}

// A tick's error, proportional and derivative term, the sum with the integrator, and the output.
#[derive(Clone, Copy)]
pub struct Terms {
    pub e: f64,
    pub y_p: f64,
    pub y_d: f64,
    pub y_u: f64,
    pub y: f64,
}

impl ControllerConfig {
    // How far the measurement is from the setpoint, in the direction of action.
    #[tactic(auto, unfolding(crate::specs::Recurrence::error))]
    fn error(self, heard: Heard) -> f64
        ensures { result ≡ error self heard }
    {
        self.direction() * (heard.u_s - heard.u_m) / guarded_positive(self.r)
    }

    // The terms of this tick.
    #[tactic(auto, unfolding(crate::specs::Recurrence::terms_of, crate::specs::Recurrence::proportional))]
    pub fn current_terms(self, s: State, heard: Heard) -> Terms
        ensures { result ≡ terms_of self s heard }
    {
        let e = self.error(heard);
        let y_p = guarded_positive(self.k) * e;
        let y_d = self.derivative_output(s, e);
        let y_u = (y_p + y_d) + self.integral_output(s);
        let y = self.limit(y_u);
        Terms {
            e,
            y_p,
            y_d,
            y_u,
            y,
        }
    }

    // The state after this tick, whose terms are these.
    #[tactic(auto, unfolding(crate::specs::Recurrence::state_after))]
    pub fn next_state(self, s: State, terms: Terms, time: f64, trigger: bool) -> State
        ensures { result ≡ state_after self s terms time trigger }
    {
        let dt = tick_dt(time, s.previous);
        State {
            integrator: self.next_integrator(s, terms, dt, trigger),
            previous: Some(time),
            filter: self.next_filter(s, terms.e, dt),
            trigger,
        }
    }
}
