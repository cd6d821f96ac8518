// One tick of the hold.
ghost use Rattle.std.specs.Prelude.{◌≡◌};
ghost use Rattle.true_hold_with_reset.specs.TrueHoldWithReset.{run_time, holds, output_and_timer, advance};

use crate::TrueHoldWithReset;
use dynamics::{Inputs, Timed, is_first_tick, positive_duration, tick_dt};
use hold::State;
use reals::flag_of;

// How long a true output has lasted as of this tick; 0.0 for a false one.
fn run_time(s: State, time: f64) -> f64
    ensures { result ≡ run_time s time }
{
    if s.held {
        return s.timer + tick_dt(time, s.previous);
    }
    0.0
}

// Whether the output is true as of this tick, whose run time is timer.
fn is_true(settings: TrueHoldWithReset, s: State, timer: f64, input: bool) -> bool
    ensures { result ≡ holds settings s timer input }
{
    input | (s.held & (timer < positive_duration(settings.duration)))
}

// The output as of this tick, and the timer to store.
fn output_and_timer(
    settings: TrueHoldWithReset,
    s: State,
    time: f64,
    input: bool,
    clear: bool,
) -> Timed
    ensures { result ≡ output_and_timer settings s time input clear }
{
    let first = is_first_tick(s.previous);
    if clear {
        return Timed {
            y: false,
            timer: 0.0,
        };
    }
    if first {
        return Timed {
            y: input,
            timer: 0.0,
        };
    }
    let timer = run_time(s, time);
    if is_true(settings, s, timer, input) {
        return Timed { y: true, timer };
    }
    Timed {
        y: false,
        timer: 0.0,
    }
}

// The state after this tick.
pub(crate) fn advance(settings: TrueHoldWithReset, s: State, time: f64, inputs: Inputs) -> State
    ensures { result ≡ advance settings s time inputs }
{
    let input = flag_of(inputs.first);
    let clear = flag_of(inputs.second);
    let timed = output_and_timer(settings, s, time, input, clear);
    State {
        held: timed.y,
        timer: timed.timer,
        previous: Some(time),
    }
}
