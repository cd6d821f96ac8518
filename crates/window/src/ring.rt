// The ring that a window asks for.
ghost use Rattle.std.specs.Prelude.{◌≡◌};
ghost use Rattle.window.specs.Geometry.{delta_eff, slots_of, geometry_of};

use dynamics::raised_to;
use reals::ceil;

// Upstream `delta(min=1E-5)`.
const MIN_DELTA: f64 = 1e-5;

// How many slots a window has at the least and at the most, and how many a ring has beyond them.
const LEAST_SLOTS: usize = 2048;

const MOST_SLOTS: usize = 131072;

const SPARE_SLOTS: usize = 4;

// How many words lie ahead of a ring in its region.
pub const FRONT_WORDS: usize = 6;

// A ring resolved from delta: the window, how many points fit, how many words the region has, and how far apart ticks
// are that are all kept.
#[derive(Clone, Copy)]
pub struct RingGeometry {
    pub delta: f64,
    pub capacity: usize,
    pub length: usize,
    pub resolution: f64,
}

// The window: delta, but not below its least.
#[tactic(auto, using(crate::proofs::Literals::least_is), unfolding(crate::specs::Geometry::delta_eff))]
fn delta_eff(delta: f64) -> f64
    ensures { result ≡ delta_eff delta }
{
    raised_to(MIN_DELTA, delta)
}

// Two slots a second, within the least and the most. A NaN gives the most.
#[tactic(auto, using(crate::proofs::Literals::least_slots_is, crate::proofs::Literals::most_slots_is, crate::proofs::Sizes::cut_above, crate::proofs::Sizes::cut_below), unfolding(crate::specs::Geometry::slots_of))]
fn slots(whole: f64) -> usize
    ensures { result ≡ slots_of whole }
{
    if whole < MOST_SLOTS as f64 {
        if (LEAST_SLOTS as f64) < whole {
            return std::num::truncating_f64_to_u64(whole) as usize;
        }
        return LEAST_SLOTS;
    }
    MOST_SLOTS
}

// The ring for a window of delta seconds.
#[tactic(auto, using(crate::proofs::Sizes::slots_within, crate::proofs::Sizes::slots_exact, crate::proofs::Literals::two_is), unfolding(crate::specs::Geometry::geometry_of, crate::specs::Geometry::slot_count))]
pub fn geometry(delta: f64) -> RingGeometry
    ensures { result ≡ geometry_of delta }
{
    let window = delta_eff(delta);
    let n = slots(2.0 * ceil(window));
    let capacity = n + SPARE_SLOTS;
    RingGeometry {
        delta: window,
        capacity,
        length: FRONT_WORDS + 2 * capacity,
        resolution: window / (n as f64),
    }
}
