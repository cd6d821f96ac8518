// One tick of the timer.
ghost use Rattle.std.specs.Prelude.{◌≡◌};
ghost use Rattle.timer_accumulating.specs.TimerAccumulating.{counts, y_now, passed_now, advance};

use crate::TimerAccumulating;
use crate::state::State;
use dynamics::{Inputs, is_first_tick, is_rising, tick_dt};
use reals::flag_of;

// Whether the gap that this tick ends counts.
fn gap_counts(s: State, input: bool) -> bool
    ensures { result ≡ counts s input }
{
    !is_first_tick(s.previous) & (s.input & input)
}

// The total as of this tick, which may wipe it.
fn y_now(s: State, time: f64, input: bool, wipes: bool) -> f64
    ensures { result ≡ y_now s time input wipes }
{
    if wipes {
        return 0.0;
    }
    if gap_counts(s, input) {
        return s.total + tick_dt(time, s.previous);
    }
    s.total
}

// Whether the timer has passed as of this tick, whose total is y.
fn passed_now(settings: TimerAccumulating, s: State, input: bool, wipes: bool, y: f64) -> bool
    ensures { result ≡ passed_now settings s input wipes y }
{
    if wipes {
        return settings.t <= 0.0;
    }
    if is_rising(input, s.input) {
        return settings.t <= s.total;
    }
    if input & (y >= settings.t) {
        return true;
    }
    s.passed
}

// The state after this tick.
pub(crate) fn advance(settings: TimerAccumulating, s: State, time: f64, inputs: Inputs) -> State
    ensures { result ≡ advance settings s time inputs }
{
    let input = flag_of(inputs.first);
    let reset = flag_of(inputs.second);
    let wipes = is_rising(reset, s.reset);
    let y = y_now(s, time, input, wipes);
    State {
        total: y,
        previous: Some(time),
        input,
        reset,
        passed: passed_now(settings, s, input, wipes, y),
    }
}
