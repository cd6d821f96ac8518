// The limited controller's recurrence, P, PI, PD and PID: what `Pid` and `PidWithReset` share. It knows states, and no words.
#![tactic(auto)]

mod config;
mod derivative;
mod integral;
mod limit;
mod recurrence;

pub use config::{ControllerConfig, ControllerType};
pub use recurrence::{Heard, State, Terms};
