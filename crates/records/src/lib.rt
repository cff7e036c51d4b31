// Refusals 3 to 5 of a map, record by record. It may have gaps, unless it is to be whole.
#![tactic(auto)]

ghost use Rattle.std.specs.Prelude.{◌≡◌, [], ◌≤◌, length};
ghost use Rattle.answers.specs.Refusals.{verdict};
ghost use Rattle.key.specs.Along.{Stands, ToldFit};
ghost use Rattle.map.specs.Check.{refusals_from};
ghost use Rattle.map.specs.Walk.{Takes, GoesAlong};
ghost use Rattle.map.specs.Runs;

use answers::{Cause, Refused};
use key::{Span, Spot};
use map::Gone;

// What a record is whose key is that of no block that starts at the place reached: refused by 3, by 4, and by 5 where the map is to be whole; otherwise a block behind a gap.
fn misfit(whole: bool, m: u32, at: u32, key: u32, place: u32) -> Result<Span, Refused>
    requires { (m ≤ 12) × ToldFit m at key None }
    ensures { Takes whole m at key place result }
{
    let Some(block) = digits::read_key(m, key) else {
        return Err(Cause::BadKey.at(place));
    };
    if block.start < at {
        return Err(Cause::Overlap.at(place));
    }
    if whole {
        return Err(Cause::Gap.at(place));
    }
    Ok(block)
}

// Goes along from record n on as long as each record starts where the last one's span ended. Such a record is told by its key and the place reached, and none is decoded.
pub fn along(m: u32, keys: &[u32], from: Spot, n: usize) -> Gone
    requires { (m ≤ 12) × Stands m from × (n ≤ length keys.now) }
    ensures { GoesAlong m keys.now from.place n result }
{
    let mut spot = from;
    let mut next = n;
    // No `for`: with one this loop and that of `records` become one, and a map that may have gaps takes 1.3 times as long.
    while next < keys.len() {
        let key = keys[next];
        let Some(exponent) = spots::exponent_at(m, spot, key) else {
            return Gone { spot, next };
        };
        spot = spots::advance(m, key, exponent, spot.place);
        next += 1;
    }
    Gone { spot, next }
}

// Behind the last record: refused by 5 where the map is to be whole and the picture does not end there.
fn ended(whole: bool, m: u32, at: u32, place: u32) -> Result<(), Refused>
    requires { m ≤ 12 }
    ensures { result ≡ verdict (refusals_from whole m place at []) }
{
    if whole && at < blocks::pow4(m) {
        return Err(Cause::Gap.at(place));
    }
    Ok(())
}

// Refusals 3 to 5: each record starts where the last one's span ended, and the last ends with the picture. Where the map need not be whole, there may be gaps, and 5 is not given.
pub fn records(m: u32, keys: &[u32], whole: bool) -> Result<(), Refused>
    requires { (m ≤ 12) × (length keys.now ≤ 65536) }
    ensures { result ≡ verdict (refusals_from whole m 0 0 keys.now) }
{
    let mut spot = spots::first_spot(m);
    let mut n: usize = 0;
    // No count: it goes on behind wherever `along` stopped.
    loop {
        let gone = along(m, keys, spot, n);
        let at = gone.spot.place;
        let next = gone.next;
        if next == keys.len() {
            return ended(whole, m, at, next as u32);
        }
        let key = keys[next];
        let block = misfit(whole, m, at, key, next as u32)?;
        spot = spots::advance(m, key, block.exponent, block.start);
        n = next + 1;
    }
}
