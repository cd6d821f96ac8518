// Walks along the ring's times, and the integral at the window's edge.
ghost use Rattle.std.specs.Prelude.{◌≡◌};
ghost use Rattle.moving_average.specs.Ring.{edge_of, expired_of};
ghost use Rattle.moving_average.specs.Average.{mu_at};

use crate::ring::Points;
use window::{Point, interpolate};

impl<'a> Points<'a> {
    // The first position at or before whose time the target lies, or the count.
    fn edge(&self, target: f64) -> usize
        ensures { result ≡ edge_of self.now.region.now self.now.ring target }
    {
        let count = self.ring.count;
        for n in 0..count {
            if target <= self.time_at(n) {
                return n;
            }
        }
        count
    }

    // How many of the oldest points expire: each whose next one is still at or before the cutoff.
    pub(crate) fn expired(&self, cutoff: f64) -> usize
        ensures { result ≡ expired_of self.now.region.now self.now.ring cutoff }
    {
        let mut gone = 0;
        for n in 1..self.ring.count {
            if self.time_at(n) <= cutoff {
                gone = n;
            } else {
                return gone;
            }
        }
        gone
    }

    // The integral up to the target, by the ring's points and the present one.
    #[tactic(auto, using(crate::proofs::Walks::edge_most), unfolding(crate::specs::Average::mu_at, crate::specs::Average::mu_from))]
    pub(crate) fn mu_at(&self, target: f64, present: Point) -> f64
        ensures { result ≡ mu_at self.now.region.now self.now.ring target present }
    {
        let count = self.ring.count;
        if count == 0 {
            return present.mu;
        }
        let n = self.edge(target);
        if n == 0 {
            return self.point_at(0).mu;
        }
        let prev = self.point_at(n - 1);
        if n < count {
            return interpolate(prev, self.point_at(n), target);
        }
        if target <= present.time {
            return interpolate(prev, present, target);
        }
        present.mu
    }
}
