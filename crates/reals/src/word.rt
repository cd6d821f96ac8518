// What a stored word means: a real is its f64 bits, every NaN being the one; a boolean is true unless 0.
ghost use Rattle.std.specs.Prelude.{◌≡◌};
ghost use Rattle.std.specs.Float.Ieee.{is_nan};
ghost use Rattle.std.specs.Float.Ieee.Scale.{finite};
ghost use Rattle.reals.specs.Words.{real_of, word_of, canonical_word, flag_of, word_of_flag};

// The patterns of infinity and of the one NaN, and the bit of the sign. Without that bit, every pattern above infinity's is a NaN's.
const INFINITY_BITS: u64 = 0x7ff0_0000_0000_0000;

const NAN_BITS: u64 = 0x7ff8_0000_0000_0000;

const SIGN_BIT: u64 = 0x8000_0000_0000_0000;

// Whether a word is the pattern of a NaN.
#[tactic(auto, using(crate::proofs::Words::nan_above))]
fn is_nan_word(w: u64) -> bool
    ensures { result ≡ is_nan (real_of w) }
{
    INFINITY_BITS < w % SIGN_BIT
}

// The real that a stored word means; every NaN pattern means the one NaN.
#[tactic(auto, using(crate::proofs::Words::nan_is, crate::proofs::Words::nan_of, crate::proofs::Words::number_bits))]
pub fn real_of(w: u64) -> f64
    ensures { result ≡ real_of w }
{
    if is_nan_word(w) {
        return f64::NAN;
    }
    f64::from_bits(w)
}

// The word that stores a real; a NaN is stored as the canonical one.
#[tactic(auto, using(crate::proofs::Words::nan_of, crate::proofs::Words::word_nan))]
pub fn word_of(x: f64) -> u64
    ensures { result ≡ word_of x }
{
    if x.is_nan() {
        return NAN_BITS;
    }
    x.to_bits()
}

// The word with every NaN made the canonical one; other words stay.
#[tactic(auto, using(crate::proofs::Words::canonical_is))]
pub fn canonical(w: u64) -> u64
    ensures { result ≡ canonical_word w }
{
    word_of(real_of(w))
}

// A stored boolean: any word but 0 is true.
pub fn flag_of(w: u64) -> bool
    ensures { result ≡ flag_of w }
{
    w != 0
}

// The word that stores a boolean: 1 or 0.
pub fn word_of_flag(b: bool) -> u64
    ensures { result ≡ word_of_flag b }
{
    u64::from(b)
}

// Neither a NaN nor an infinity.
#[tactic(auto, using(crate::proofs::Words::finite_is))]
pub fn is_finite(x: f64) -> bool
    ensures { result ≡ finite x }
{
    x.is_finite()
}
