// The records of a block, for whoever asks again: the records around a block that were found last are known, and are not sought again.
#![tactic(auto)]

ghost use Rattle.std.specs.Prelude.{◌≡◌, ◌↔◌, true, ◌≤◌, length};
ghost use Rattle.map.specs.Sound.{Spaced};
ghost use Rattle.map.specs.Runs.{BlockOf};
ghost use Rattle.near.specs.Near.{seen, LiesIn, Known, Sees};

use map::Run;

// A record around a block, by its number, its key and the end of its keys: each block in it overlaps it alone. None where the keys end where they begin: the test of a key is then the only
// one that is needed, and so this is no `Option`.
#[derive(Clone, Copy)]
pub struct Near {
    pub first: u32,
    pub from: u32,
    pub end: u32,
}

// The records that overlap a block, and the last two records that were found around one: along the rows of a window the walk comes back to those at its two sides.
#[derive(Clone, Copy)]
pub struct Seen {
    pub run: Run,
    pub near: Near,
    pub other: Near,
}

// What is known at first: nothing, unless one record is the whole picture.
pub fn first_seen(m: u32, keys: &[u32]) -> Seen
    requires { (m ≤ 12) × Spaced m 0 keys.now }
    ensures { Known m keys.now result.near × Known m keys.now result.other }
{
    let nowhere = Near {
        first: 0,
        from: 0,
        end: 0,
    };
    let none = Seen {
        run: runs::inside(0, 0, 0),
        near: nowhere,
        other: nowhere,
    };
    if keys.len() != 1 {
        return none;
    }
    if keys[0] != 0 {
        return none;
    }
    let whole = Near {
        end: blocks::pow5(m),
        ..nowhere
    };
    Seen {
        near: whole,
        ..none
    }
}

// Whether the block of a key lies in the record.
pub fn lies_in(near: Near, key: u32) -> bool
    ensures { (result ≡ true) ↔ LiesIn near key }
{
    near.from < key && key < near.end
}

// The other record is the nearer now.
pub fn exchanged(two: Seen) -> Seen
    ensures { result ≡ seen two.run two.other two.near }
{
    Seen {
        near: two.other,
        other: two.near,
        ..two
    }
}

// The same records as `records_of` finds. A record around the block is kept, and with it the nearer one so far.
pub fn look_up(m: u32, keys: &[u32], key: u32, i: u32, seen: Seen) -> Seen
    requires { (m ≤ 12) × (length keys.now ≤ 65536) × Spaced m 0 keys.now × BlockOf m key i × Known m keys.now seen.near × Known m keys.now seen.other }
    ensures { Sees m keys.now key result }
{
    let first = runs::keys_below(keys, key, 0);
    let count = runs::records_inside(m, keys, key, i, first);
    if count > 0 {
        let run = runs::inside(first, count, i);
        return Seen { run, ..seen };
    }
    let run = runs::record_around(m, keys, key, i, first);
    if run.reach == i {
        return Seen { run, ..seen };
    }
    let from = keys[run.first as usize];
    let near = Near {
        first: run.first,
        from,
        end: from + blocks::pow5(run.reach),
    };
    Seen {
        run,
        near,
        other: seen.near,
    }
}
