// The integrator. Without I it is 0.0.
ghost use Rattle.std.specs.Prelude.{◌≡◌};
ghost use Rattle.controller.specs.Recurrence.{integral, integral_rate, next_integrator};

use crate::config::{ControllerConfig, guarded_positive};
use crate::recurrence::{State, Terms};
use dynamics::{forward_euler_accumulate, is_rising};

impl ControllerConfig {
    // What the integrator adds to the sum.
    #[tactic(auto, using(reals::proofs::Words::zero_is), unfolding(crate::specs::Recurrence::integral))]
    pub(crate) fn integral_output(self, s: State) -> f64
        ensures { result ≡ integral self s }
    {
        if self.controller_type.with_i() {
            s.integrator
        } else {
            0.0
        }
    }

    // How fast the integrator moves: by the error, less what the limits cut off.
    #[tactic(auto, unfolding(crate::specs::Recurrence::integral_rate))]
    fn integral_rate(self, terms: Terms) -> f64
        ensures { result ≡ integral_rate self terms }
    {
        let k = guarded_positive(self.k);
        let ant_win_gai = (terms.y_u - terms.y) / (k * guarded_positive(self.ni));
        let err_i2 = terms.e - ant_win_gai;
        (k / guarded_positive(self.ti)) * err_i2
    }

    // The integrator after this tick: solved back from y_reset on a rising trigger, else one step further.
    #[tactic(auto, using(reals::proofs::Words::zero_is), unfolding(crate::specs::Recurrence::next_integrator, crate::specs::Recurrence::solved_back))]
    pub(crate) fn next_integrator(self, s: State, terms: Terms, dt: f64, trigger: bool) -> f64
        ensures { result ≡ next_integrator self s terms dt trigger }
    {
        if !self.controller_type.with_i() {
            return 0.0;
        }
        if is_rising(trigger, s.trigger) {
            return self.y_reset - (terms.y_p + terms.y_d);
        }
        forward_euler_accumulate(s.integrator, self.integral_rate(terms), dt)
    }
}
