// The items of a line as words.
ghost use Rattle.std.specs.Prelude.{◌≡◌, ◌≤◌, length};
ghost use Rattle.lines.specs.Values.{item_of, items_from, words_said, laid_out};

use text::{end_of, read_flag, read_type, read_word};

// An item of a class: r a real, c a controller type, b a boolean. Classes stay bytes: the table of forms has them so (`forms`), and a
// line's classes read as one word, b"crrb", where a list of an enum's names would not.
#[tactic(auto, unfolding(crate::specs::Values::item_of))]
fn read_item(class: u8, s: &[u8]) -> Option<u64>
    ensures { result ≡ item_of class s.now }
{
    match class {
        b'r' => read_word(s),
        b'c' => read_type(s),
        _ => read_flag(s),
    }
}

// The words of the items of a line from `at` on, one of each class and no more. Those that there are not are 0.
#[tactic(auto, using(crate::proofs::Words::filled_zeros, crate::proofs::Words::filled_short, crate::proofs::Words::filled_word, crate::proofs::Words::filled_bad, crate::proofs::Words::filled_over, crate::proofs::Words::filled_end))]
pub(crate) fn read_values(line: &[u8], at: usize, classes: &[u8]) -> Option<[u64; 16]>
    requires { length classes.now ≤ 16 }
    ensures { result ≡ laid_out (words_said classes.now (items_from line.now at)) }
{
    let mut words = [0; 16];
    let mut next = at;
    for (j, class) in classes.iter().enumerate() {
        if line.len() < next {
            return None;
        }
        let end = end_of(line, next, b' ');
        words[j] = read_item(*class, &line[next..end])?;
        next = end + 1;
    }
    if next <= line.len() {
        return None;
    }
    Some(words)
}
