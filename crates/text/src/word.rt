// A word as text: sixteen upper-case hexadecimal digits.
ghost use Rattle.std.specs.Prelude.{◌≡◌, ◌<◌, ltb};
ghost use Rattle.std.specs.Bool.{then_some};
ghost use Rattle.text.specs.Word.{digit_value, word_item, glyph, word_text};

// The value of an upper-case hexadecimal digit.
#[tactic(auto, unfolding(crate::specs::Word::digit_value))]
fn digit_value(b: u8) -> Option<u64>
    ensures { result ≡ then_some (ltb (digit_value b) 16) (digit_value b) }
{
    match b {
        b'0'..=b'9' => Some(u64::from(b - b'0')),
        b'A'..=b'F' => Some(u64::from(b - b'A' + 10)),
        _ => None,
    }
}

// The word that sixteen digits write.
#[tactic(auto, using(crate::proofs::Digits::hex_other, crate::proofs::Digits::hex_end), unfolding(crate::specs::Word::word_item))]
pub fn read_word(s: &[u8]) -> Option<u64>
    ensures { result ≡ word_item s.now }
{
    if s.len() != 16 {
        return None;
    }
    let mut word = 0;
    for b in s {
        word = word * 16 + digit_value(*b)?;
    }
    Some(word)
}

// The digit of a value below 16.
#[tactic(auto, unfolding(crate::specs::Word::glyph))]
fn digit(d: u64) -> u8
    requires { d < 16 }
    ensures { result ≡ glyph d }
{
    if d < 10 {
        b'0' + d as u8
    } else {
        b'A' + (d - 10) as u8
    }
}

// The sixteen digits of a word.
#[tactic(auto, using(crate::proofs::Writing::hex_whole))]
pub fn word_text(w: u64) -> [u8; 16]
    ensures { result ≡ word_text w }
{
    let mut text = [0; 16];
    for i in 0..16 {
        text[i] = digit((w >> (60 - 4 * i)) % 16);
    }
    text
}
