// The words ahead of the ring: what they mean, and which of them decode.
ghost use Rattle.std.specs.Prelude.{◌≡◌};
ghost use Rattle.moving_average.specs.MovingAverage.{state_of, ring_of, decodable};

use crate::ring::Ring;
use dynamics::{Previous, flag_at, previous_at, previous_sound, real_at, word_at};

// The integral of the input, when the first tick came and when the previous one, where the ring begins and how many
// points it has, and whether ticks were ever too close to be kept apart. The ring's points stay in the region.
#[derive(Clone, Copy)]
pub struct State {
    pub mu: f64,
    pub t_start: f64,
    pub previous: Previous,
    pub head: usize,
    pub count: usize,
    pub coalesced: bool,
}

// What a region's first words mean.
pub(crate) fn state_of(region: &[u64]) -> State
    ensures { result ≡ state_of region.now }
{
    State {
        mu: real_at(region, 0),
        t_start: real_at(region, 1),
        previous: previous_at(region, 2),
        head: word_at(region, 3) as usize,
        count: word_at(region, 4) as usize,
        coalesced: flag_at(region, 5),
    }
}

// Whether the previous time is unset or finite, and head and count lie within the capacity.
pub(crate) fn decodes(s: State, capacity: usize) -> bool
    ensures { result ≡ decodable s capacity }
{
    previous_sound(s.previous) & (s.head < capacity) & (s.count <= capacity)
}

// Where the ring of such a state stands.
pub(crate) fn ring_of(s: State, capacity: usize) -> Ring
    ensures { result ≡ ring_of s capacity }
{
    Ring {
        capacity,
        head: s.head,
        count: s.count,
    }
}
