// A line of words: sixteen digits each, one space between.
ghost use Rattle.std.specs.Prelude.{◌≡◌, ◌≤◌, length, IfSome};
ghost use Rattle.replay.specs.Line.{item_from, WordsOf};

use text::read_word;

// The word that starts at `at` and ends before a space or with the line.
#[tactic(auto, unfolding(crate::specs::Line::item_from), using(crate::proofs::Lines::short_item))]
fn item_from(line: &[u8], at: usize) -> Option<u64>
    requires { at ≤ length line.now }
    ensures { result ≡ item_from line.now at }
{
    if line.get(at + 16).copied().unwrap_or(b' ') != b' ' {
        return None;
    }
    read_word(line.get(at..at + 16)?)
}

// Reads the words of a line, and answers how many there are, if it is made of words, and not of too many.
pub fn read_words(line: &[u8], words: &mut [u64]) -> Option<usize>
    ensures { IfSome result (λ n. WordsOf line.now n words.new) }
{
    let mut at = 0;
    for (n, word) in words.iter_mut().enumerate() {
        *word = item_from(line, at)?;
        if line.len() - at <= 16 {
            return Some(n + 1);
        }
        at += 17;
    }
    None
}
