// A region is a lent list of words: one is read, or all are stored at once.
ghost use Rattle.std.specs.Prelude.{◌≡◌, length, get_or, replicate};
ghost use Rattle.reals.specs.Words.{real_of, flag_of};
ghost use Rattle.dynamics.specs.Previous.{previous_of};
ghost use Rattle.dynamics.specs.Region.{stored};

use crate::previous::{Previous, previous_of};
use reals::{flag_of, real_of};

// The word at a place of the region, and 0 past its end.
pub fn word_at(region: &[u64], place: usize) -> u64
    ensures { result ≡ get_or region.now place 0 }
{
    region.get(place).copied().unwrap_or(0)
}

// The real that the word there means.
pub fn real_at(region: &[u64], place: usize) -> f64
    ensures { result ≡ real_of (get_or region.now place 0) }
{
    real_of(word_at(region, place))
}

// The boolean that the word there means.
pub fn flag_at(region: &[u64], place: usize) -> bool
    ensures { result ≡ flag_of (get_or region.now place 0) }
{
    flag_of(word_at(region, place))
}

// The previous time that the word there means.
pub fn previous_at(region: &[u64], place: usize) -> Previous
    ensures { result ≡ previous_of (get_or region.now place 0) }
{
    previous_of(word_at(region, place))
}

// Writes the words over the whole region. A region of another length stays as it is.
pub fn store(region: &mut [u64], words: &[u64])
    ensures { region.new ≡ stored region.old words.now }
{
    if region.len() == words.len() {
        region.copy_from_slice(words);
    }
}

// Every word 0.
pub fn clear(region: &mut [u64])
    ensures { region.new ≡ replicate (length region.old) 0 }
{
    region.fill(0);
}
