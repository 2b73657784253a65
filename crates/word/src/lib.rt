// Words and flags: the conditions, the updates of a stream's index, and the operators, each by its code; and the sign of a word.
// `condition`, `update` and `operate` answer their definitions of specs/Words.antt on all inputs.
// The sign is worked out on u32: a cast to a signed number asks that nothing is lost.
// Assumes nothing.
#![tactic(auto)]

ghost use Rattle.std.specs.Prelude.{◌≡◌, ◌/◌, ◌^◌, not, pos, neg_ℤ, nat_lt, unsigned_abs};
ghost use Rattle.std.specs.Int.Signed.{non_neg};
ghost use Rattle.word.specs.Words.{pick, flag, value_of, word_of, sum, difference, product, quotient, shift_left, shift_right, update, condition, operate};

// The bits of a word.
const WIDTH: u32 = 32;

// The first word that is read as a negative number.
const HALF: u32 = 2147483648;

const LAST: u32 = 4294967295;

pub fn is_negative(x: u32) -> bool
    ensures answer { result ≡ not (non_neg (value_of x)) }
{
    HALF <= x
}

// A word's value without its sign.
pub fn magnitude(x: u32) -> u32
    ensures answer { result ≡ unsigned_abs (value_of x) }
{
    if x < HALF {
        return x;
    }
    LAST - x + 1
}

// The word of -x.
pub fn negate(x: u32) -> u32
    ensures answer { result ≡ word_of (neg_ℤ (pos x)) }
{
    std::num::wrapping_sub_u32(0, x)
}

// The sign bit turned: the order of what comes out is that of the values.
fn turned(x: u32) -> u32
    ensures answer { result ≡ sum x 2147483648 }
{
    std::num::wrapping_add_u32(x, HALF)
}

fn add(x: u32, y: u32) -> u32
    ensures answer { result ≡ sum x y }
{
    std::num::wrapping_add_u32(x, y)
}

fn subtract(x: u32, y: u32) -> u32
    ensures answer { result ≡ difference x y }
{
    std::num::wrapping_sub_u32(x, y)
}

// Through u64, which the product of two words fits.
fn multiply(x: u32, y: u32) -> u32
    ensures answer { result ≡ product x y }
{
    ((x as u64) * (y as u64) % 4294967296) as u32
}

fn divide(x: u32, y: u32) -> u32
    ensures answer { result ≡ quotient x y }
{
    if y == 0 {
        return 0;
    }
    let q = magnitude(x) / magnitude(y);
    if is_negative(x) == is_negative(y) {
        return q;
    }
    negate(q)
}

// The language shifts by fewer places than a word has bits, so the others are answered first.
fn shift_left(x: u32, places: u32) -> u32
    ensures answer { result ≡ shift_left x places }
{
    if WIDTH <= places {
        return 0;
    }
    x << places
}

// A shift to the right that brings zeros in.
fn shift_down(x: u32, places: u32) -> u32
    ensures answer { result ≡ x / 2 ^ pick (nat_lt places 32) places 32 }
{
    if WIDTH <= places {
        return 0;
    }
    x >> places
}

// A negative word is turned over, shifted, and turned back: the zeros that came in are ones then.
fn shift_right(x: u32, places: u32) -> u32
    ensures answer { result ≡ shift_right x places }
{
    if is_negative(x) {
        return LAST - shift_down(LAST - x, places);
    }
    shift_down(x, places)
}

fn flag_of(test: bool) -> u32
    ensures answer { result ≡ flag test }
{
    if test { 1 } else { 0 }
}

pub fn update(code: u32, index: u32, step: u32) -> u32
    ensures answer { result ≡ update code index step }
{
    match code {
        0 => add(index, step),
        1 => subtract(index, step),
        2 => multiply(index, step),
        3 => divide(index, step),
        4 => shift_left(index, step),
        5 => shift_right(index, step),
        _ => 0,
    }
}

pub fn condition(code: u32, x: u32, y: u32) -> u32
    ensures answer { result ≡ condition code x y }
{
    let a = turned(x);
    let b = turned(y);
    match code {
        0 => flag_of(a < b),
        1 => flag_of(a <= b),
        2 => flag_of(a > b),
        3 => flag_of(a >= b),
        4 => flag_of(x != y),
        _ => 0,
    }
}

pub fn operate(code: u32, x: u32, y: u32) -> u32
    ensures answer { result ≡ operate code x y }
{
    match code {
        0 => add(x, y),
        1 => subtract(x, y),
        2 => multiply(x, y),
        3..=7 => condition(code - 3, x, y),
        _ => 0,
    }
}
