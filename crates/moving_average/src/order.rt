// Whether the times of the ring's points are in order.
ghost use Rattle.std.specs.Prelude.{◌≡◌, true, ◌+◌, ◌-◌, ◌≤◌, Some};
ghost use Rattle.std.specs.Float.Ieee.Scale.{finite};
ghost use Rattle.dynamics.specs.Previous.{sound_previous};
ghost use Rattle.window.specs.Order.{is_ordered};
ghost use Rattle.window.specs.Walk.{climbed};
ghost use Rattle.moving_average.specs.Ring.{time_at, slot_time};

use crate::ring::Points;
use dynamics::Previous;
use reals::is_finite;

impl<'a> Points<'a> {
    // Along the slots from one up to another: the last time, if none is below the one before; else NaN, which is at or below no time.
    // The first is held against `last`.
    #[tactic(auto, using(window::proofs::Climbs::left_none, window::proofs::Climbs::left_on))]
    fn climb(&self, from: usize, to: usize, last: f64) -> f64
        requires forward { from ≤ to }
        requires inside { to ≤ self.now.ring.capacity }
        ensures { result ≡ climbed (slot_time self.now.region.now) from (to - from) last }
    {
        let mut top = last;
        for s in from..to {
            let next = self.slot_time(s);
            if top <= next {
                top = next;
            } else {
                return f64::NAN;
            }
        }
        top
    }

    // Where the slots of the points would end if they ran straight on.
    fn straight_end(&self) -> usize
        ensures { result ≡ self.now.ring.head + self.now.ring.count }
    {
        self.ring.head + self.ring.count
    }

    // The same along all positions: the slots from the head on, and those past the turn.
    #[tactic(auto, using(crate::proofs::Stretches::straight, crate::proofs::Stretches::turned))]
    fn climb_all(&self, last: f64) -> f64
        ensures { result ≡ climbed (time_at self.now.region.now self.now.ring) 0 self.now.ring.count last }
    {
        let end = self.straight_end();
        if end <= self.ring.capacity {
            return self.climb(self.ring.head, end, last);
        }
        let turned = self.climb(self.ring.head, self.ring.capacity, last);
        self.climb(0, end - self.ring.capacity, turned)
    }

    // Whether the times are in order up to a previous time, which is finite.
    #[tactic(auto, using(window::proofs::Climbs::none_walked, window::proofs::Climbs::walk_else, window::proofs::Climbs::walk_then))]
    fn is_ordered_to(&self, previous: f64) -> bool
        requires { finite previous ≡ true }
        ensures { result ≡ is_ordered (time_at self.now.region.now self.now.ring) self.now.ring.count (Some previous) }
    {
        if self.ring.count == 0 {
            return true;
        }
        let first = self.time_at(0);
        if !is_finite(first) {
            return false;
        }
        self.climb_all(first) <= previous
    }

    // Whether the times are in order; before the first tick there are none.
    #[tactic(auto, using(window::proofs::Climbs::unset_ordered))]
    pub(crate) fn is_ordered(&self, previous: Previous) -> bool
        requires { sound_previous previous ≡ true }
        ensures { result ≡ is_ordered (time_at self.now.region.now self.now.ring) self.now.ring.count previous }
    {
        match previous {
            None => self.ring.count == 0,
            Some(then) => self.is_ordered_to(then),
        }
    }
}
