// A tick's point is stored: old points expire, the new one takes its place.
ghost use Rattle.std.specs.Prelude.{◌≡◌, ◌<◌, ◌≤◌, eqb};
ghost use Rattle.moving_average.specs.Ring.{Holds};
ghost use Rattle.moving_average.specs.Average.{pruned, is_crowded, after, over, place_of, written};

use crate::ring::{Points, Ring};
use reals::word_of;

// Where a tick's point goes: its position, the count then, and whether it takes the place of another time's point.
#[derive(Clone, Copy)]
pub struct Place {
    pub position: usize,
    pub count: usize,
    pub coalesced: bool,
}

// The words that an update writes.
#[derive(Clone, Copy)]
pub struct Step {
    pub mu: u64,
    pub t_start: u64,
    pub time: u64,
    pub ring: Ring,
    pub place: Place,
    pub coalesced: u64,
}

impl<'a> Points<'a> {
    // The ring without the points that no window reaches any more.
    #[tactic(auto, using(crate::proofs::Walks::expired_most), unfolding(crate::specs::Average::pruned))]
    pub(crate) fn pruned(&self, cutoff: f64) -> Ring
        ensures { result ≡ pruned self.now.region.now self.now.ring cutoff }
    {
        let gone = self.expired(cutoff);
        Ring {
            capacity: self.ring.capacity,
            head: self.slot(gone),
            count: self.ring.count - gone,
        }
    }

    // After the last point.
    fn after_last(&self) -> Place
        ensures { result ≡ after self.now.ring }
    {
        Place {
            position: self.ring.count,
            count: self.ring.count + 1,
            coalesced: false,
        }
    }

    // In the last point's place.
    fn over_last(&self, coalesced: bool) -> Place
        requires { 0 < self.now.ring.count }
        ensures { result ≡ over self.now.ring coalesced }
    {
        Place {
            position: self.ring.count - 1,
            count: self.ring.count,
            coalesced,
        }
    }

    // The last point but one is closer than the history resolves, or no slot is free.
    #[tactic(auto, using(window::proofs::Literals::two_is), unfolding(crate::specs::Average::is_crowded))]
    fn is_crowded(&self, resolution: f64, t: f64) -> bool
        ensures { result ≡ is_crowded self.now.region.now self.now.ring resolution t }
    {
        let count = self.ring.count;
        if self.ring.capacity <= count {
            return true;
        }
        if count < 2 {
            return false;
        }
        t - self.time_at(count - 2) < 2.0 * resolution
    }

    // The place of a point at t.
    #[tactic(auto, unfolding(crate::specs::Average::place_of))]
    pub(crate) fn place_for(&self, resolution: f64, t: f64) -> Place
        ensures { result ≡ place_of self.now.region.now self.now.ring resolution t }
    {
        let count = self.ring.count;
        if count == 0 {
            return self.after_last();
        }
        if same_time(self.time_word(count - 1), word_of(t)) {
            return self.over_last(false);
        }
        if self.is_crowded(resolution, t) {
            return self.over_last(true);
        }
        self.after_last()
    }
}

// Whether two stored times are the same. Their bits decide, so -0.0 is another time than 0.0.
fn same_time(a: u64, b: u64) -> bool
    ensures { result ≡ eqb a b }
{
    a == b
}

impl Step {
    // Writes the first six words, and the two of the tick's point.
    #[tactic(auto, using(crate::proofs::Places::time_within, crate::proofs::Places::mu_within, crate::proofs::Stores::six_written), unfolding(crate::specs::Average::written))]
    pub(crate) fn write(self, region: &mut [u64])
        requires holds { Holds region.old self.ring }
        requires inside { self.place.position ≤ self.ring.capacity }
        ensures { region.new ≡ written region.old self }
    {
        let points = Points {
            region,
            ring: self.ring,
        };
        let time_at = points.time_place(self.place.position);
        let mu_at = points.mu_place(self.place.position);
        region[0] = self.mu;
        region[1] = self.t_start;
        region[2] = self.time;
        region[3] = self.ring.head as u64;
        region[4] = self.place.count as u64;
        region[5] = self.coalesced;
        region[time_at] = self.time;
        region[mu_at] = self.mu;
    }
}
