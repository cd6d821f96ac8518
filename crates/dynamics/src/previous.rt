// The time of the previous tick, and the gap since.
ghost use Rattle.std.specs.Prelude.{◌≡◌};
ghost use Rattle.dynamics.specs.Previous.{previous_of, word_of_previous, sound_previous, gap, runs_back, is_first};

use reals::{is_finite, real_of, word_of};

// The previous-time word before the first tick.
pub const PREV_T_UNSET: u64 = 0xffff_ffff_ffff_ffff;

// The time of the previous tick, if there was one.
pub type Previous = Option<f64>;

// What a previous-time word says.
#[tactic(auto, unfolding(crate::specs::Previous::previous_of))]
pub fn previous_of(w: u64) -> Previous
    ensures { result ≡ previous_of w }
{
    if w == PREV_T_UNSET {
        return None;
    }
    Some(real_of(w))
}

// The word that stores a previous time.
pub fn word_of_previous(previous: Previous) -> u64
    ensures { result ≡ word_of_previous previous }
{
    previous.map_or(PREV_T_UNSET, word_of)
}

// Whether a previous time is unset or finite.
pub fn previous_sound(previous: Previous) -> bool
    ensures { result ≡ sound_previous previous }
{
    previous.is_none_or(is_finite)
}

// Whether no tick has set a previous time yet.
pub fn is_first_tick(previous: Previous) -> bool
    ensures { result ≡ is_first previous }
{
    previous.is_none()
}

// The time since the previous tick: 0.0 on the first, else one rounded subtraction.
pub fn tick_dt(time: f64, previous: Previous) -> f64
    ensures { result ≡ gap time previous }
{
    previous.map_or(0.0, |then| time - then)
}

// Whether a time lies below a set previous one.
pub fn runs_back(time: f64, previous: Previous) -> bool
    ensures { result ≡ runs_back time previous }
{
    previous.is_some_and(|then| time < then)
}
