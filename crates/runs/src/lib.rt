// Which records of a map overlap a block: by a search by halves in the list of keys.
#![tactic(auto)]

ghost use Rattle.std.specs.Prelude.{◌≡◌, ◌+◌, ◌^◌, ◌≤◌, length};
ghost use Rattle.map.specs.Sound.{Spaced};
ghost use Rattle.map.specs.Runs;
ghost use Rattle.map.specs.Runs.{run, run_of, BlockOf, Rising, Bracket, Splits};

use map::Run;

// How many keys are below x, where those before `from` are: a search by halves in rising keys.
// Written out, and no `partition_point`: the wrong version `half_not_narrowed`, which would not end, is one of this loop.
pub fn keys_below(keys: &[u32], x: u32, from: usize) -> usize
    requires { Rising keys.now × Bracket keys.now x from (length keys.now) }
    ensures { Splits keys.now x result }
{
    let mut low = from;
    let mut high = keys.len();
    while low < high {
        let middle = (low + high) / 2;
        if keys[middle] < x {
            low = middle + 1;
        } else {
            high = middle;
        }
    }
    low
}

// How many records lie in the block of a key and its exponent, from `first` on, the first record that can. Their end is sought behind it, and not at all where its key is the block's
// own or lies beyond the block. m is there for the contract alone.
pub fn records_inside(m: u32, keys: &[u32], key: u32, i: u32, first: usize) -> usize
    requires { (m ≤ 12) × Spaced m 0 keys.now × BlockOf m key i × Splits keys.now key first }
    ensures { Splits keys.now (key + 5 ^ i) (first + result) }
{
    if first == keys.len() {
        return 0;
    }
    let found = keys[first];
    if found == key {
        return 1;
    }
    let end = key + blocks::pow5(i);
    if end <= found {
        return 0;
    }
    keys_below(keys, end, first + 1) - first
}

// The records that overlap a block in which none lies: the one before it in the list, if the block's key is one of its; or none.
pub fn record_around(m: u32, keys: &[u32], key: u32, i: u32, next: usize) -> Run
    requires { (m ≤ 12) × (length keys.now ≤ 65536) × Spaced m 0 keys.now × BlockOf m key i × Splits keys.now key next × Splits keys.now (key + 5 ^ i) next }
    ensures { result ≡ run_of m keys.now key }
{
    if next == 0 {
        return inside(0, 0, i);
    }
    let first = next - 1;
    let reach = digits::reach_over(m, keys[first], key, i);
    if reach == i {
        return inside(0, 0, reach);
    }
    Run {
        first: first as u32,
        count: 1,
        reach,
    }
}

// So many records from the first on that lie in a block of exponent i.
pub fn inside(first: usize, count: usize, i: u32) -> Run
    requires { (first ≤ 65536) × (count ≤ 65536) }
    ensures { result ≡ run first count i }
{
    Run {
        first: first as u32,
        count: count as u32,
        reach: i,
    }
}

// The records of a map that overlap the block of a key and its exponent: those with one of the block's keys, or else the one around it, if there is one.
pub fn records_of(m: u32, keys: &[u32], key: u32, i: u32) -> Run
    requires { (m ≤ 12) × (length keys.now ≤ 65536) × Spaced m 0 keys.now × BlockOf m key i }
    ensures { result ≡ run_of m keys.now key }
{
    let first = keys_below(keys, key, 0);
    let count = records_inside(m, keys, key, i, first);
    if count == 0 {
        return record_around(m, keys, key, i, first);
    }
    inside(first, count, i)
}
