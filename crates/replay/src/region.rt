// A region's stored words, put into a lent region.
ghost use Rattle.std.specs.Prelude.{length, replicate, true, false};
ghost use Rattle.replay.specs.Region.{PutIn};

// Two regions that calls are replayed on: the block's own, and one for what it is to hold.
#[derive(Drop)]
pub struct Regions<'a> {
    pub region: &'a mut [u64],
    pub expected: &'a mut [u64],
}

// Puts in all words. Where what follows them starts, if there are so many.
#[tactic(auto, unfolding(crate::specs::Region::filled, crate::specs::Region::ending))]
fn put_all(words: &[u64], at: usize, region: &mut [u64]) -> Option<usize>
    ensures { PutIn false words.now at region.old result region.new }
{
    if words.len() < at || words.len() - at < region.len() {
        return None;
    }
    let end = at + region.len();
    region.copy_from_slice(&words[at..end]);
    Some(end)
}

// Puts in a number of words, each given by its place and itself. Where what follows them starts, if there are so many, and a place for each.
fn put_pairs(words: &[u64], at: usize, region: &mut [u64]) -> Option<usize>
    ensures { PutIn true words.now at region.old result region.new }
{
    let count = *words.get(at)?;
    let mut next = at + 1;
    for _put in 0..count {
        if words.len() - next < 2 {
            return None;
        }
        let place = words[next] as usize;
        if region.len() <= place {
            return None;
        }
        region[place] = words[next + 1];
        next += 2;
    }
    Some(next)
}

// The words of a line, and whether a region's stand among them by pairs: a bool, as `filled` and `ending` have it.
#[derive(Clone, Copy)]
pub struct Words<'a> {
    pub words: &'a [u64],
    pub pairs: bool,
}

impl Words<'_> {
    // Puts in the words from `at` on, in the form in which the list has them.
    pub fn put(self, at: usize, region: &mut [u64]) -> Option<usize>
        ensures { PutIn self.entry.pairs self.entry.words.now at region.old result region.new }
    {
        if self.pairs {
            put_pairs(self.words, at, region)
        } else {
            put_all(self.words, at, region)
        }
    }

    // The same on a region that holds zeros.
    pub fn put_afresh(self, at: usize, region: &mut [u64]) -> Option<usize>
        ensures { PutIn self.entry.pairs self.entry.words.now at (replicate (length region.old) 0) result region.new }
    {
        region.fill(0);
        self.put(at, region)
    }
}
