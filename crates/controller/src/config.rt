// A controller's settings, and the gains and times that the recurrence works with.
ghost use Rattle.std.specs.Prelude.{◌≡◌};
ghost use Rattle.controller.specs.Settings.{with_i, with_d, direction, effective, settings_accepted};

use dynamics::raised_to;
use reals::is_finite;

// CDL's smallest number.
pub const CDL_EPS: f64 = 1e-15;

// The least gain, time and factor that the recurrence works with.
const MIN_PARAM: f64 = 100.0 * CDL_EPS;

// Which terms a controller has: the proportional one always.
#[derive(Clone, Copy)]
pub enum ControllerType {
    P,
    Pi,
    Pd,
    Pid,
}

impl ControllerType {
    // Whether there is an integrator.
    pub(crate) fn with_i(self) -> bool
        ensures { result ≡ with_i self }
    {
        matches!(self, ControllerType::Pi | ControllerType::Pid)
    }

    // Whether there is a derivative filter.
    pub(crate) fn with_d(self) -> bool
        ensures { result ≡ with_d self }
    {
        matches!(self, ControllerType::Pd | ControllerType::Pid)
    }
}

// A controller's settings: gain k, integral and derivative time ti and td, range r of the error, limits y_max and y_min of the output,
// anti-windup factor ni, filter factor nd, the integrator and the derivative term at the start, the output that a reset aims at, and the direction.
#[derive(Clone, Copy)]
pub struct ControllerConfig {
    pub controller_type: ControllerType,
    pub k: f64,
    pub ti: f64,
    pub td: f64,
    pub r: f64,
    pub y_max: f64,
    pub y_min: f64,
    pub ni: f64,
    pub nd: f64,
    pub xi_start: f64,
    pub yd_start: f64,
    pub y_reset: f64,
    pub reverse_acting: bool,
}

impl ControllerConfig {
    // Whether all eleven numbers are finite, whatever the type.
    #[tactic(auto, unfolding(crate::specs::Settings::settings_accepted))]
    pub fn accepted(self) -> bool
        ensures { result ≡ settings_accepted self }
    {
        is_finite(self.k)
            & is_finite(self.ti)
            & is_finite(self.td)
            & is_finite(self.r)
            & is_finite(self.y_max)
            & is_finite(self.y_min)
            & is_finite(self.ni)
            & is_finite(self.nd)
            & is_finite(self.xi_start)
            & is_finite(self.yd_start)
            & is_finite(self.y_reset)
    }

    // 1.0, or -1.0 where the output shall rise with the measurement.
    pub(crate) fn direction(self) -> f64
        ensures { result ≡ direction self.reverse_acting }
    {
        if self.reverse_acting { 1.0 } else { -1.0 }
    }
}

// A gain, time or factor as the recurrence works with it.
#[tactic(auto, using(crate::proofs::Literals::least_is), unfolding(crate::specs::Settings::effective))]
pub(crate) fn guarded_positive(x: f64) -> f64
    ensures { result ≡ effective x }
{
    raised_to(MIN_PARAM, x)
}
