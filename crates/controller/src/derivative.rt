// The derivative term and its filter. Without D both are 0.0.
ghost use Rattle.std.specs.Prelude.{◌≡◌};
ghost use Rattle.controller.specs.Settings.{derivative_gain, derivative_time};
ghost use Rattle.controller.specs.Recurrence.{derivative, filter_at_start, filter_before, next_filter};

use crate::config::{CDL_EPS, ControllerConfig, guarded_positive};
use crate::recurrence::State;
use dynamics::{first_order_filter_implicit, is_first_tick};
use reals::absolute;

impl ControllerConfig {
    // k * td.
    #[tactic(auto, unfolding(crate::specs::Settings::derivative_gain))]
    fn derivative_gain(self) -> f64
        ensures { result ≡ derivative_gain self }
    {
        guarded_positive(self.k) * guarded_positive(self.td)
    }

    // The filter's time constant, td / nd.
    #[tactic(auto, unfolding(crate::specs::Settings::derivative_time))]
    fn derivative_time(self) -> f64
        ensures { result ≡ derivative_time self }
    {
        guarded_positive(self.td) / guarded_positive(self.nd)
    }

    // The derivative term: what the filter lags behind, or yd_start on the first tick.
    #[tactic(auto, using(reals::proofs::Words::zero_is), unfolding(crate::specs::Recurrence::derivative))]
    pub(crate) fn derivative_output(self, s: State, e: f64) -> f64
        ensures { result ≡ derivative self s e }
    {
        if !self.controller_type.with_d() {
            return 0.0;
        }
        if is_first_tick(s.previous) {
            return self.yd_start;
        }
        (self.derivative_gain() / self.derivative_time()) * (e - s.filter)
    }

    // The filter's value that makes the first derivative term yd_start.
    #[tactic(auto, using(crate::proofs::Literals::eps_is), unfolding(crate::specs::Recurrence::filter_at_start))]
    fn filter_at_start(self, e: f64) -> f64
        ensures { result ≡ filter_at_start self e }
    {
        let gain = self.derivative_gain();
        if absolute(gain) < CDL_EPS {
            return e;
        }
        e - self.derivative_time() * self.yd_start / gain
    }

    // The filter's value before this tick.
    #[tactic(auto, unfolding(crate::specs::Recurrence::filter_before))]
    fn filter_before(self, s: State, e: f64) -> f64
        ensures { result ≡ filter_before self s e }
    {
        if is_first_tick(s.previous) {
            return self.filter_at_start(e);
        }
        s.filter
    }

    // The filter's value after this tick.
    #[tactic(auto, using(reals::proofs::Words::zero_is), unfolding(crate::specs::Recurrence::next_filter))]
    pub(crate) fn next_filter(self, s: State, e: f64, dt: f64) -> f64
        ensures { result ≡ next_filter self s e dt }
    {
        if !self.controller_type.with_d() {
            return 0.0;
        }
        let x = self.filter_before(s, e);
        first_order_filter_implicit(x, e, self.derivative_time(), dt)
    }
}
