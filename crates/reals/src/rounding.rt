// Absolute value, and rounding to a whole number by comparisons and by adding 2^52 and taking it away.
ghost use Rattle.std.specs.Prelude.{◌≡◌, cond};
ghost use Rattle.std.specs.Float.Ieee.{lt, neg};
ghost use Rattle.reals.specs.Words.{0·0};
ghost use Rattle.reals.specs.Rounding.{magnitude, whole, upward, downward};

// From here on every real is a whole number: there is no place for a fraction.
const TWO_52: f64 = 4503599627370496.0;

// The same size without its sign.
#[tactic(auto, using(crate::proofs::Magnitude::magnitude_is))]
pub fn absolute(x: f64) -> f64
    ensures { result ≡ magnitude x }
{
    x.abs()
}

// The size of x; a zero keeps its sign. With `absolute` in its place each call of `ceil` and `floor` takes 24 bytes of flash more.
fn size_of(x: f64) -> f64
    ensures { result ≡ cond (lt x 0·0) (neg x) x }
{
    if x < 0.0 {
        return -x;
    }
    x
}

// x rounded to a whole number, up or down. Below zero its size goes the other way. This shape takes the least flash: with one function
// that rounds a size, called for each sign, `ceil` takes 25 bytes more and `floor` 13; std's `ceil` takes 97 more.
fn to_whole(x: f64, up: bool) -> f64
    ensures { result ≡ whole (cond up upward downward) x }
{
    let size = size_of(x);
    // Whole already, an infinity or the NaN.
    if !(size < TWO_52) {
        return x;
    }
    // The sum has no place for a fraction: what is left is a whole number next to the size.
    let near = size + TWO_52 - TWO_52;
    if 0.0 < x {
        if up & (near < x) {
            return near + 1.0;
        }
        if !up & (x < near) {
            return near - 1.0;
        }
        return near;
    }
    if x < 0.0 {
        if up & (size < near) {
            return -(near - 1.0);
        }
        if !up & (near < size) {
            return -(near + 1.0);
        }
        return -near;
    }
    // A zero, with its sign.
    x
}

// The least whole number not below x.
pub fn ceil(x: f64) -> f64
    ensures { result ≡ whole upward x }
{
    to_whole(x, true)
}

// The greatest whole number not above x.
pub fn floor(x: f64) -> f64
    ensures { result ≡ whole downward x }
{
    to_whole(x, false)
}
