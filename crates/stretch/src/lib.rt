// The fewest blocks that make up a stretch of places, in key order.
#![tactic(auto)]

ghost use Rattle.std.specs.Prelude.{◌≡◌, ◌+◌, ◌^◌, ◌≤◌, ◌<◌, length};
ghost use Rattle.answers.specs.Cells.{Listed};
ghost use Rattle.key.specs.Along.{Stands};
ghost use Rattle.stretch.specs.Fewest.{stretch};
ghost use Rattle.stretch.specs.Walk.{largest, Lays};

use key::Spot;

// A block of a stretch: its key, and where the walk stands behind it.
#[derive(Clone, Copy)]
pub struct Laid {
    pub key: u32,
    pub behind: Spot,
}

// The exponent, up to `top`, of the largest block with no more than so many places: half the position of the highest bit of their number.
// Zeros are counted of twice the number and 1 more, which is never 0: a processor that has no count for 0 then needs no test.
fn largest(top: u32, places: u32) -> u32
    requires { (1 ≤ places) × (places ≤ 4 ^ 12) }
    ensures { result ≡ largest top places }
{
    let i = (30 - (2 * places + 1).leading_zeros()) / 2;
    i.min(top)
}

// Of the fewest blocks that make up the places from where the walk stands up to `end`, the first.
pub fn next_block(m: u32, spot: Spot, end: u32) -> Laid
    requires { (m ≤ 12) × Stands m spot × (spot.place < end) × (end ≤ 4 ^ m) }
    ensures { Lays m spot.place end result.key result.behind }
{
    let i = largest(spot.top, end - spot.place);
    let key = spots::key_here(m, spot, i);
    let behind = spots::advance(m, key, i, spot.place);
    Laid { key, behind }
}

// Writes the keys of all of them behind n others, those for which there is room. How many there are then.
pub fn put_stretch(m: u32, from: Spot, end: u32, out: &mut [u32], n: u32) -> u32
    requires { (m ≤ 12) × Stands m from × (end ≤ 4 ^ m) × (n + length (stretch m from.place end) ≤ 4294967295) }
    ensures { Listed n (stretch m from.place end) out.old result out.new }
{
    let mut spot = from;
    let mut k = n;
    // No iterator: each block says where the next one stands, and one field of it is written.
    while spot.place < end {
        let next = next_block(m, spot, end);
        answers::put(out, k, next.key);
        k += 1;
        spot = next.behind;
    }
    k
}

// The same of the places from a up to b.
pub fn put_between(m: u32, a: u32, b: u32, out: &mut [u32], n: u32) -> u32
    requires { (m ≤ 12) × (b ≤ 4 ^ m) × (n + length (stretch m a b) ≤ 4294967295) }
    ensures { Listed n (stretch m a b) out.old result out.new }
{
    if b <= a {
        return n;
    }
    let spot = spots::spot_at(m, a);
    put_stretch(m, spot, b, out, n)
}
