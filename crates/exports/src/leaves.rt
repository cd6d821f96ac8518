// The shared leaves over words.
ghost use Rattle.std.specs.Prelude.{◌≡◌};
ghost use Rattle.reals.specs.Words.{real_of, word_of, canonical_word};
ghost use Rattle.reals.specs.Rounding.{magnitude, whole, upward, downward};
ghost use Rattle.dynamics.specs.Previous.{previous_of, gap};
ghost use Rattle.dynamics.specs.Leaves.{accumulated, filtered, positive_duration};

use dynamics::{
    first_order_filter_implicit, forward_euler_accumulate, positive_duration, previous_of, tick_dt,
};
use reals::{absolute, canonical, ceil, floor, real_of, word_of};

// The word with every NaN made the canonical one.
pub fn oven_canonical(w: u64) -> u64
    ensures { result ≡ canonical_word w }
{
    canonical(w)
}

// The time since the previous tick, whose word may be the unset one.
pub fn oven_tick_dt(time: u64, previous: u64) -> u64
    ensures { result ≡ word_of (gap (real_of time) (previous_of previous)) }
{
    word_of(tick_dt(real_of(time), previous_of(previous)))
}

// x with slope * dt added on.
pub fn oven_accumulate(x: u64, slope: u64, dt: u64) -> u64
    ensures { result ≡ word_of (accumulated (real_of x) (real_of slope) (real_of dt)) }
{
    word_of(forward_euler_accumulate(real_of(x), real_of(slope), real_of(dt)))
}

// One step of the one-pole filter toward the input.
pub fn oven_filter(x: u64, input: u64, time_const: u64, dt: u64) -> u64
    ensures { result ≡ word_of (filtered (real_of x) (real_of input) (real_of time_const) (real_of dt)) }
{
    word_of(first_order_filter_implicit(
        real_of(x),
        real_of(input),
        real_of(time_const),
        real_of(dt),
    ))
}

// x if it is above zero, else 0.0.
pub fn oven_positive_duration(x: u64) -> u64
    ensures { result ≡ word_of (positive_duration (real_of x)) }
{
    word_of(positive_duration(real_of(x)))
}

// The same size without its sign.
pub fn oven_absolute(x: u64) -> u64
    ensures { result ≡ word_of (magnitude (real_of x)) }
{
    word_of(absolute(real_of(x)))
}

// The least whole number not below x.
pub fn oven_ceil(x: u64) -> u64
    ensures { result ≡ word_of (whole upward (real_of x)) }
{
    word_of(ceil(real_of(x)))
}

// The greatest whole number not above x.
pub fn oven_floor(x: u64) -> u64
    ensures { result ≡ word_of (whole downward (real_of x)) }
{
    word_of(floor(real_of(x)))
}
