// One tick of the delay.
ghost use Rattle.std.specs.Prelude.{◌≡◌};
ghost use Rattle.true_delay.specs.TrueDelay.{waits, output_and_timer, advance};

use crate::TrueDelay;
use crate::state::State;
use dynamics::{Inputs, Timed, is_first_tick, positive_duration, tick_dt};
use reals::flag_of;

// Whether a true input on the first tick has to wait.
fn first_waits(settings: TrueDelay, delay: f64) -> bool
    ensures { result ≡ waits settings delay }
{
    settings.delay_on_init & (delay > 0.0)
}

// The output of this tick, and the timer to store.
fn output_and_timer(settings: TrueDelay, s: State, time: f64, input: bool) -> Timed
    ensures { result ≡ output_and_timer settings s time input }
{
    if !input {
        return Timed {
            y: false,
            timer: 0.0,
        };
    }
    let delay = positive_duration(settings.delay_time);
    if is_first_tick(s.previous) {
        if first_waits(settings, delay) {
            return Timed {
                y: false,
                timer: 0.0,
            };
        }
        return Timed {
            y: true,
            timer: delay,
        };
    }
    if s.held {
        return Timed {
            y: true,
            timer: delay,
        };
    }
    if !s.input {
        return Timed {
            y: delay <= 0.0,
            timer: 0.0,
        };
    }
    let timer = s.timer + tick_dt(time, s.previous);
    Timed {
        y: timer >= delay,
        timer,
    }
}

// The state after this tick; it holds the output.
pub(crate) fn advance(settings: TrueDelay, s: State, time: f64, inputs: Inputs) -> State
    ensures { result ≡ advance settings s time inputs }
{
    let input = flag_of(inputs.first);
    let timed = output_and_timer(settings, s, time, input);
    State {
        timer: timed.timer,
        previous: Some(time),
        input,
        held: timed.y,
    }
}
