// One tick of the pulse.
ghost use Rattle.std.specs.Prelude.{◌≡◌};
ghost use Rattle.logical_variable_pulse.specs.LogicalVariablePulse.{width_changed, next_sampled_u, next_t0, adjusted_period, round_six, t_start, cycle_output, held_output_and_timer, advance};

use crate::LogicalVariablePulse;
use crate::state::State;
use dynamics::{Inputs, Timed, is_first_tick, raised_to};
use hold::output_and_timer;
use reals::{absolute, ceil, floor, is_finite, real_of};

// How many minimum holds a period has at least: both outputs have room in it.
const HOLDS_IN_A_PERIOD: f64 = 2.02;

// Six decimals: times are rounded to one part in this many.
const FACTOR: f64 = 1_000_000.0;

// Whether the input lies further than delta_u from the sampled one.
fn width_change_exceeds_delta(sampled_u: f64, u: f64, delta_u: f64) -> bool
    ensures { result ≡ width_changed sampled_u u delta_u }
{
    absolute(sampled_u - u) > delta_u
}

// The input that this tick leaves sampled.
fn next_sampled_u(s: State, u: f64, changed: bool) -> f64
    ensures { result ≡ next_sampled_u s u changed }
{
    if changed {
        return u;
    }
    s.sampled_u
}

// The anchor: when the cycle of this tick began.
fn next_t0(s: State, time: f64, changed: bool) -> f64
    ensures { result ≡ next_t0 s time changed }
{
    if is_first_tick(s.previous) | changed {
        return time;
    }
    s.t0
}

// The period, raised where two minimum holds would not fit into it.
fn adjusted_period(settings: LogicalVariablePulse) -> f64
    ensures { result ≡ adjusted_period settings }
{
    raised_to(
        settings.min_true_false_hold * HOLDS_IN_A_PERIOD,
        settings.period,
    )
}

// Rounded to six decimals, a half away from zero.
fn buildings_round_six(x: f64) -> f64
    ensures { result ≡ round_six x }
{
    if x > 0.0 {
        return floor(x * FACTOR + 0.5) / FACTOR;
    }
    ceil(x * FACTOR - 0.5) / FACTOR
}

// Where the latest period that has begun since t0 begins.
fn t_start(time: f64, t0: f64, period: f64) -> f64
    ensures { result ≡ t_start time t0 period }
{
    t0 + buildings_round_six(floor((time - t0) / period) * period)
}

// What the cycle asks for, whatever is held.
fn cycle_output(time: f64, u: f64, t0: f64, period: f64) -> bool
    ensures { result ≡ cycle_output time u t0 period }
{
    if !(is_finite(time) & is_finite(t0)) {
        return false;
    }
    if !is_finite(u) | (u <= 0.0) {
        return false;
    }
    if u >= 1.0 {
        return true;
    }
    let start = t_start(time, t0, period);
    (time >= start) & (time < start + u * period)
}

// The output as of this tick, and the timer to store.
fn held_output_and_timer(cycle_y: bool, s: State, time: f64, min_hold: f64) -> Timed
    ensures { result ≡ held_output_and_timer cycle_y s time min_hold }
{
    let held = hold::State {
        held: s.held,
        timer: s.timer,
        previous: s.previous,
    };
    output_and_timer(min_hold, held, time, cycle_y)
}

// The state after this tick; it holds the output.
pub(crate) fn advance(settings: LogicalVariablePulse, s: State, time: f64, inputs: Inputs) -> State
    ensures { result ≡ advance settings s time inputs }
{
    let u = real_of(inputs.first);
    let changed = width_change_exceeds_delta(s.sampled_u, u, settings.delta_u);
    let t0 = next_t0(s, time, changed);
    let cycle_y = cycle_output(time, u, t0, adjusted_period(settings));
    let timed = held_output_and_timer(cycle_y, s, time, settings.min_true_false_hold);
    State {
        sampled_u: next_sampled_u(s, u, changed),
        t0,
        held: timed.y,
        timer: timed.timer,
        previous: Some(time),
    }
}
