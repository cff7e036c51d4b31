// The digits of keys: reading one, as a block by its span or as a square, and how far a block reaches around another. As in the crate `blocks`, m is at most 12.
#![tactic(auto)]

ghost use Rattle.std.specs.Prelude.{MatchOption, ◌≡◌, cond, ◌*◌, ◌^◌, ◌≤◌, ◌<◌, eqb};
ghost use Rattle.key.specs.Form.{span, form_of};
ghost use Rattle.key.specs.Reading.{Strips, place_or16, pairs_table, EndsIn, start_up, starts_table};
ghost use Rattle.key.specs.Blocks.{Names, SomeBlock, SquareOf, BelowBlock, Reaches};

use key::{Span, Square, Stripped};

// Two digits, for each number below 25: the place of the pixel of that key among 16, or 16 where one of them is 0.
static PAIRS: [u8; 25] = [
    16, 16, 16, 16, 16, 16, 0, 1, 2, 3, 16, 4, 5, 6, 7, 16, 8, 9, 10, 11, 16, 12, 13, 14, 15,
];

fn pairs_table() -> &'static [u8; 25]
    ensures { result.now ≡ pairs_table }
{
    &PAIRS
}

// A number without most of the zeros that it ends in, by 5^11 or 5^8, if it is as large as that, by 5^5 or by 5^2: at most two are left.
fn strip_most(key: u32) -> Stripped
    requires { (1 ≤ key) × (key < 5 ^ 12) }
    ensures { Strips 3 key result.zeros result.rest }
{
    if key >= 390625 {
        let eleven = key / 48828125;
        if eleven * 48828125 == key {
            return Stripped {
                rest: eleven,
                zeros: 11,
            };
        }
        let eight = key / 390625;
        if eight * 390625 == key {
            return Stripped {
                rest: eight,
                zeros: 8,
            };
        }
    }
    let five = key / 3125;
    if five * 3125 == key {
        return Stripped {
            rest: five,
            zeros: 5,
        };
    }
    let two = key / 25;
    if two * 25 == key {
        return Stripped {
            rest: two,
            zeros: 2,
        };
    }
    Stripped {
        rest: key,
        zeros: 0,
    }
}

// A number without the zeros that it ends in.
fn strip_zeros(key: u32) -> Stripped
    requires { (1 ≤ key) × (key < 5 ^ 12) }
    ensures { Strips 1 key result.zeros result.rest }
{
    let most = strip_most(key);
    let rest = most.rest;
    if rest < 5 {
        return most;
    }
    let two = rest / 25;
    if two * 25 == rest {
        return Stripped {
            rest: two,
            zeros: most.zeros + 2,
        };
    }
    let one = rest / 5;
    if one * 5 == rest {
        return Stripped {
            rest: one,
            zeros: most.zeros + 1,
        };
    }
    most
}

// The place of the pixel whose key has the two digits, by the table: there is one unless one of them is 0.
fn pair_place(two: u32) -> Option<u32>
    requires { two < 25 }
    ensures { MatchOption result (place_or16 (form_of 2 two) ≡ 16) (λ p. form_of 2 two ≡ Some (span 0 p)) }
{
    let place = pairs_table()[two as usize] as u32;
    if place == 16 {
        return None;
    }
    Some(place)
}

// What a key is whose digits are read: malformed, unless it has m of them.
fn form_of_digits(m: u32, digits: u32, exponent: u32, start: u32) -> Option<Span>
    ensures { result ≡ cond (eqb digits m) (Some (span exponent start)) None }
{
    if digits != m {
        return None;
    }
    Some(Span { exponent, start })
}

// Reads a number without the zeros that were taken off, two digits at a time from the small end. k digits are read, with the zeros: they are the key of a block in a picture of side
// 2^k, at place `start` there. `rest` stands above them.
fn read_digits(m: u32, low: Stripped) -> Option<Span>
    requires { Strips 1 (low.rest * 5 ^ low.zeros) low.zeros low.rest × (low.rest * 5 ^ low.zeros < 5 ^ 12) }
    ensures { result ≡ form_of m (low.rest * 5 ^ low.zeros) }
{
    let zeros = low.zeros;
    let mut rest = low.rest;
    let mut k = zeros;
    let mut start = 0;
    // No range or iterator: how many turns there are, what is left says.
    while rest >= 25 {
        // No `?`: the edit `zero_between_digits` is one of what is answered here.
        let Some(place) = pair_place(rest % 25) else {
            return None;
        };
        start = place * blocks::pow4(k) + start;
        rest /= 25;
        k += 2;
    }
    if rest < 5 {
        return form_of_digits(m, k + 1, zeros, (rest - 1) * blocks::pow4(k) + start);
    }
    let place = pair_place(rest)?;
    form_of_digits(m, k + 2, zeros, place * blocks::pow4(k) + start)
}

// Takes the zeros off that the key ends in, in big steps, and reads the other digits from the small end. From 5^12 on a number has more digits than any key.
pub fn read_key(m: u32, key: u32) -> Option<Span>
    requires { m ≤ 12 }
    ensures { result ≡ form_of m key }
{
    if key == 0 {
        return Some(Span {
            exponent: m,
            start: 0,
        });
    }
    if key >= 244140625 {
        return None;
    }
    read_digits(m, strip_zeros(key))
}

// Two digits of a block's key, for each number below 25: where they say that its span starts, among 16 places. A zero counts as the first quadrant does.
static STARTS: [u8; 25] = [
    0, 0, 1, 2, 3, 0, 0, 1, 2, 3, 4, 4, 5, 6, 7, 8, 8, 9, 10, 11, 12, 12, 13, 14, 15,
];

pub fn starts_table() -> &'static [u8; 25]
    ensures { result.now ≡ starts_table }
{
    &STARTS
}

// How many zeros a number of m digits ends in.
pub fn zeros_of(m: u32, key: u32) -> u32
    requires { m ≤ 12 }
    ensures { EndsIn m key result }
{
    let mut rest = key;
    for zeros in 0..m {
        if rest % 5 != 0 {
            return zeros;
        }
        rest /= 5;
    }
    m
}

// Where the span of the block of a key starts, by its digits: two at a time from the small end, and always twelve. Any number has such a start.
pub fn start_of(key: u32) -> u32
    ensures { result ≡ start_up 12 key }
{
    let mut left = key;
    let mut start = 0;
    for k in 0..6 {
        let pair = starts_table()[(left % 25) as usize] as u32;
        start = pair * blocks::pow4(2 * k) + start;
        left /= 25;
    }
    start
}

// The block of a key that is known to be that of one. Unlike `read_key`, it tests nothing.
pub fn span_of(m: u32, key: u32) -> Span
    requires { (m ≤ 12) × SomeBlock m key }
    ensures { Names m key result.exponent result.start }
{
    let exponent = zeros_of(m, key);
    let start = start_of(key);
    Span { exponent, start }
}

// The square that a number names, if it is the key of a block; of any other it is some square. Digit by digit from the small end: each chooses a half of the rows and a half of the
// columns, and of a block's key as many are 0 as its exponent says.
pub fn square_of(m: u32, key: u32) -> Square
    requires { m ≤ 12 }
    ensures { SquareOf m key result }
{
    let mut rest = key;
    let mut exponent = 0;
    let mut row = 0;
    let mut col = 0;
    for k in 0..m {
        let side = blocks::side(k);
        let digit = (rest % 5) as u16;
        rest /= 5;
        if digit == 0 {
            exponent += 1;
        } else {
            row += (digit - 1) / 2 * side;
            col += (digit - 1) % 2 * side;
        }
    }
    Square { exponent, row, col }
}

// How far the block of a key reaches around the block of a larger key and its exponent i: its own exponent where it contains it, otherwise i. Where it does, it is as many digits
// larger as the one key has over the other, and its own key ends in as many zeros.
pub fn reach_over(m: u32, own: u32, key: u32, i: u32) -> u32
    requires { (m ≤ 12) × BelowBlock m own key i }
    ensures { Reaches m own key i result }
{
    if own == 0 {
        return m;
    }
    let over = key - own;
    let mut e = i;
    let mut p = blocks::pow5(i);
    // No range or iterator: how many turns there are, the power says.
    while p <= over {
        p *= 5;
        e += 1;
    }
    if own % p != 0 {
        return i;
    }
    e
}
