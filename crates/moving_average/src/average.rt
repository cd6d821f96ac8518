// One tick of the average: its output, and the step that an update writes.
ghost use Rattle.std.specs.Prelude.{◌≡◌};
ghost use Rattle.dynamics.specs.Region.{Gives};
ghost use Rattle.moving_average.specs.Ring.{Holds};
ghost use Rattle.moving_average.specs.MovingAverage.{ring_of, mu_now, start_of, output_of, start_word, latch, warning_of, after_of};

use crate::ring::Points;
use crate::state::{State, ring_of};
use crate::store::Step;
use dynamics::{forward_euler_accumulate, is_first_tick, is_rising, tick_dt};
use reals::word_of;
use window::{Point, RingGeometry, denominator};

// The integral with this tick's input.
#[tactic(auto, unfolding(crate::specs::MovingAverage::mu_now))]
pub(crate) fn mu_now(s: State, t: f64, u: f64) -> f64
    ensures { result ≡ mu_now s t u }
{
    forward_euler_accumulate(s.mu, u, tick_dt(t, s.previous))
}

// When the window began: with the first tick.
#[tactic(auto, unfolding(crate::specs::MovingAverage::start_of))]
fn t_start(s: State, t: f64) -> f64
    ensures { result ≡ start_of s t }
{
    if is_first_tick(s.previous) {
        t
    } else {
        s.t_start
    }
}

impl<'a> Points<'a> {
    // The mean over the window up to t, where the integral is mu.
    #[tactic(auto, unfolding(crate::specs::MovingAverage::output_of))]
    pub(crate) fn output(&self, geometry: RingGeometry, s: State, t: f64, mu: f64) -> f64
        requires { self.now.ring ≡ ring_of s geometry.capacity }
        ensures { result ≡ output_of geometry self.now.region.now s t mu }
    {
        let mu_del = self.mu_at(t - geometry.delta, Point { time: t, mu });
        (mu - mu_del) / denominator(t_start(s, t), geometry.delta, t)
    }
}

// The start time's word: the first tick sets it.
fn start_word(old: u64, first: bool, t: f64) -> u64
    ensures { result ≡ start_word old first t }
{
    if first { word_of(t) } else { old }
}

// The coalesced word: the warning sets it.
fn latch(old: u64, warning: bool) -> u64
    ensures { result ≡ latch old warning }
{
    if warning { 1 } else { old }
}

// Stores the tick at t, where the integral is mu, and says whether that warns: the first point ever to be coalesced does.
pub(crate) fn advance(geometry: RingGeometry, region: &mut [u64], s: State, t: f64, mu: f64) -> bool
    requires { Holds region.old (ring_of s geometry.capacity) }
    ensures { Gives (warning_of geometry region.old s t) (after_of geometry region.old s t mu) result region.new }
{
    let all = Points {
        region,
        ring: ring_of(s, geometry.capacity),
    };
    let left = Points {
        region,
        ring: all.pruned(t - geometry.delta),
    };
    let place = left.place_for(geometry.resolution, t);
    let warning = is_rising(place.coalesced, s.coalesced);
    let step = Step {
        mu: word_of(mu),
        t_start: start_word(region[1], is_first_tick(s.previous), t),
        time: word_of(t),
        ring: left.ring,
        place,
        coalesced: latch(region[5], warning),
    };
    step.write(region);
    warning
}
