// The ring of points inside a region, by position: position 0 is the oldest point.
ghost use Rattle.std.specs.Prelude.{◌≡◌, ◌<◌, ◌≤◌};
ghost use Rattle.moving_average.specs.Ring.{Holds, slot_of, time_place, mu_place, time_word, time_at, slot_time, point_at};

use reals::real_of;
use window::{FRONT_WORDS, Point};

// Where the ring stands in its region: the oldest point's slot, and how many points there are.
#[derive(Clone, Copy)]
pub struct Ring {
    pub capacity: usize,
    pub head: usize,
    pub count: usize,
}

// The ring and the region that holds it.
#[derive(Clone, Copy)]
pub struct Points<'a> {
    pub region: &'a [u64],
    pub ring: Ring,
    pub ghost holds: { Holds region.now ring },
}

impl<'a> Points<'a> {
    // The slot of position n.
    #[tactic(auto, using(crate::proofs::Places::slot_straight, crate::proofs::Places::slot_turned))]
    pub(crate) fn slot(&self, n: usize) -> usize
        requires { n ≤ self.now.ring.capacity }
        ensures { result ≡ slot_of self.now.ring n }
    {
        let s = self.ring.head + n;
        if s < self.ring.capacity {
            return s;
        }
        s - self.ring.capacity
    }

    // The words of position n. These two methods and `slot_time`, and their definitions, are all that knows the layout.
    #[tactic(auto, using(crate::proofs::Places::slot_within), unfolding(crate::specs::Ring::time_place))]
    pub(crate) fn time_place(&self, n: usize) -> usize
        requires { n ≤ self.now.ring.capacity }
        ensures { result ≡ time_place self.now.ring n }
    {
        FRONT_WORDS + self.slot(n)
    }

    #[tactic(auto, using(crate::proofs::Places::slot_within), unfolding(crate::specs::Ring::mu_place))]
    pub(crate) fn mu_place(&self, n: usize) -> usize
        requires { n ≤ self.now.ring.capacity }
        ensures { result ≡ mu_place self.now.ring n }
    {
        FRONT_WORDS + self.ring.capacity + self.slot(n)
    }

    #[tactic(auto, using(crate::proofs::Places::time_within), unfolding(crate::specs::Ring::time_word))]
    pub(crate) fn time_word(&self, n: usize) -> u64
        requires { n ≤ self.now.ring.capacity }
        ensures { result ≡ time_word self.now.region.now self.now.ring n }
    {
        self.region[self.time_place(n)]
    }

    #[tactic(auto, unfolding(crate::specs::Ring::time_at))]
    pub(crate) fn time_at(&self, n: usize) -> f64
        requires { n ≤ self.now.ring.capacity }
        ensures { result ≡ time_at self.now.region.now self.now.ring n }
    {
        real_of(self.time_word(n))
    }

    // The time in a slot, whatever its position.
    #[tactic(auto, unfolding(crate::specs::Ring::slot_time))]
    pub(crate) fn slot_time(&self, s: usize) -> f64
        requires { s < self.now.ring.capacity }
        ensures { result ≡ slot_time self.now.region.now s }
    {
        real_of(self.region[FRONT_WORDS + s])
    }

    #[tactic(auto, using(crate::proofs::Places::mu_within), unfolding(crate::specs::Ring::point_at))]
    pub(crate) fn point_at(&self, n: usize) -> Point
        requires { n ≤ self.now.ring.capacity }
        ensures { result ≡ point_at self.now.region.now self.now.ring n }
    {
        Point {
            time: self.time_at(n),
            mu: real_of(self.region[self.mu_place(n)]),
        }
    }
}
