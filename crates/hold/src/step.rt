// An output that follows its input, but lasts for a least time.
ghost use Rattle.std.specs.Prelude.{◌≡◌};
ghost use Rattle.hold.specs.Hold.{output_and_timer};

use crate::State;
use dynamics::{Timed, is_first_tick, tick_dt};

// The output as of this tick, and the timer to store; the present output lasts for `least` or longer.
pub fn output_and_timer(least: f64, s: State, time: f64, input: bool) -> Timed
    ensures { result ≡ output_and_timer least s time input }
{
    if is_first_tick(s.previous) {
        return Timed {
            y: input,
            timer: 0.0,
        };
    }
    let timer = s.timer + tick_dt(time, s.previous);
    if input == s.held {
        return Timed { y: s.held, timer };
    }
    if timer >= least {
        return Timed {
            y: !s.held,
            timer: 0.0,
        };
    }
    Timed { y: s.held, timer }
}
