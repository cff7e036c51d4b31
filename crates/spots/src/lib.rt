// Along the keys, from block to block, without their digits. As in the crate `blocks`, m is at most 12.
#![tactic(auto)]

ghost use Rattle.std.specs.Prelude.{◌≡◌, ◌+◌, ◌^◌, ◌<◌, ◌≤◌};
ghost use Rattle.key.specs.Key.{ones};
ghost use Rattle.key.specs.Blocks.{Names};
ghost use Rattle.key.specs.Along.{ones_table, TellsOnes, pixel_at, Stands, ToldFit, Begins};

use key::Spot;

// The tables of such a walk, in one place: what reads both needs one address.
struct Lookup {
    // i digits 1, which is (5^i - 1)/4, for each i up to 12.
    ones: [u32; 13],
    // The numbers of `ones` leave 13 different remainders by 16: at each remainder, how many digits 1 its number has. At 3, 5 and 10, which none of them leaves, stands 0.
    digits: [u8; 16],
}

static LOOKUP: Lookup = Lookup {
    ones: [
        0, 1, 6, 31, 156, 781, 3906, 19531, 97656, 488281, 2441406, 12207031, 61035156,
    ],
    digits: [0, 1, 6, 0, 12, 0, 2, 11, 8, 9, 0, 7, 4, 5, 10, 3],
};

fn tables() -> &'static Lookup
    ensures ones { result.now.ones ≡ ones_table }
    ensures digits { TellsOnes result.now.digits }
{
    &LOOKUP
}

pub fn ones_table() -> &'static [u32; 13]
    ensures { result.now ≡ ones_table }
{
    &tables().ones
}

pub fn digits_table() -> &'static [u8; 16]
    ensures { TellsOnes result.now }
{
    &tables().digits
}

// i digits 1, as the table has them.
fn ones(i: u32) -> u32
    requires { i ≤ 12 }
    ensures { result ≡ ones i }
{
    tables().ones[i as usize]
}

pub fn first_spot(m: u32) -> Spot
    ensures { (result.place ≡ 0) × Stands m result }
{
    Spot {
        place: 0,
        key: 0,
        top: m,
    }
}

// The key of the pixel where the walk stands. m is there for the contract alone.
fn pixel_at(m: u32, spot: Spot) -> u32
    requires { (m ≤ 12) × Stands m spot × (spot.place < 4 ^ m) }
    ensures { result ≡ pixel_at spot }
{
    spot.key + ones(spot.top)
}

// The exponent of the block of a key that starts where the walk stands. It is mostly the largest; of any other, the key of the pixel there is over it by so many digits 1 as its
// exponent says, and by no such number over a key that is larger.
pub fn exponent_at(m: u32, spot: Spot, key: u32) -> Option<u32>
    requires { (m ≤ 12) × Stands m spot }
    ensures { ToldFit m spot.place key result }
{
    if spot.place == blocks::pow4(m) {
        return None;
    }
    if key == spot.key {
        return Some(spot.top);
    }
    let over = pixel_at(m, spot).wrapping_sub(key);
    let exponent = tables().digits[(over % 16) as usize] as u32;
    if ones(exponent) != over {
        return None;
    }
    if spot.top < exponent {
        return None;
    }
    Some(exponent)
}

// The same of a key that is known to be that of such a block: nothing is left to be tested. m is there for the contract alone.
pub fn exponent_here(m: u32, spot: Spot, key: u32) -> u32
    requires { (m ≤ 12) × Stands m spot × Begins m spot.place key }
    ensures { Names m key result spot.place }
{
    if key == spot.key {
        return spot.top;
    }
    let over = pixel_at(m, spot) - key;
    tables().digits[(over % 16) as usize] as u32
}

// The key of the block of exponent i that starts where the walk stands: i digits 1 below that of the pixel there.
pub fn key_here(m: u32, spot: Spot, i: u32) -> u32
    requires { (m ≤ 12) × Stands m spot × (spot.place < 4 ^ m) × (i ≤ spot.top) }
    ensures { Names m result i spot.place }
{
    pixel_at(m, spot) - ones(i)
}

// Behind the block of a key, of exponent i and with a span from `start` on. Where its keys end, those of the largest block begin that starts where its span ends. m is there for the
// contract alone.
pub fn advance(m: u32, key: u32, i: u32, start: u32) -> Spot
    requires { (m ≤ 12) × Names m key i start }
    ensures { (result.place ≡ start + 4 ^ i) × Stands m result }
{
    let place = start + blocks::pow4(i);
    let top = place.trailing_zeros() / 2;
    let end = key + blocks::pow5(i);
    Spot {
        place,
        key: end,
        top,
    }
}

// The key of the pixel at a place: each of its digits is one more than that of the place in base 4.
pub fn pixel_of(m: u32, place: u32) -> u32
    requires { (m ≤ 12) × (place < 4 ^ m) }
    ensures { Names m result 0 place }
{
    let mut key = 0;
    for k in (0..m).rev() {
        let digit = place / blocks::pow4(k) % 4;
        key = 5 * key + digit + 1;
    }
    key
}

// Where the block of a key begins, of exponent i and with a span from `start` on: the key of the largest block there is so many digits 1 below that of the block's first pixel.
pub fn begin(m: u32, key: u32, i: u32, start: u32) -> Spot
    requires { (m ≤ 12) × Names m key i start }
    ensures { (result.place ≡ start) × Stands m result }
{
    if start == 0 {
        return first_spot(m);
    }
    let top = start.trailing_zeros() / 2;
    let first = key + ones(i);
    let largest = first - ones(top);
    Spot {
        place: start,
        key: largest,
        top,
    }
}

// Where the walk stands at a place.
pub fn spot_at(m: u32, place: u32) -> Spot
    requires { (m ≤ 12) × (place < 4 ^ m) }
    ensures { (result.place ≡ place) × Stands m result }
{
    let pixel = pixel_of(m, place);
    begin(m, pixel, 0, place)
}
