// Salvage of a broken map: records with a malformed key and records that overlap are dropped, and the gaps filled with blocks that were not seen.
#![tactic(auto)]

ghost use Rattle.std.specs.Prelude.{◌≡◌, None, ◌+◌, ◌-◌, ◌*◌, ◌^◌, ◌≤◌, ◌<◌, length, get_or};
ghost use Rattle.answers.specs.Refusals.{number, verdict};
ghost use Rattle.answers.specs.Cells.{put};
ghost use Rattle.answers.specs.After.{after};
ghost use Rattle.key.specs.Form.{form_of};
ghost use Rattle.key.specs.Along.{Stands, ToldFit};
ghost use Rattle.salvage.specs.Salvage.{fills, mends_of, mends, result_refusals, salvage_of};
ghost use Rattle.salvage.specs.Making.{sheet, Makes, MakesAny, Countable, KeepsRun, KeepsAlong, MendsNext};

use answers::{Cause, Refused};
use key::{Span, Spot};

// What is answered: how many records the mended map has, and how many entries the log.
#[derive(Clone, Copy, Debug, PartialEq, Eq)]
pub struct Mended {
    pub records: u32,
    pub entries: u32,
}

// How far salvage has come: where the walk stands, and how many records and entries there are.
#[derive(Clone, Copy)]
pub struct Mending {
    pub spot: Spot,
    pub records: u32,
    pub entries: u32,
}

// How far it has come, and the next record.
#[derive(Clone, Copy)]
pub struct Progress {
    pub now: Mending,
    pub next: usize,
}

// Writes a record behind n others, its key and its class, where there is room.
fn put_record(mended: &mut [u32], painted: &mut [u8], n: u32, key: u32, class: u8)
    ensures key_put { mended.new ≡ put n key mended.old }
    ensures class_put { painted.new ≡ put n class painted.old }
{
    answers::put(mended, n, key);
    answers::put(painted, n, class);
}

// Writes an entry of the log behind n others, where there is room.
fn put_entry(log: &mut [u32], n: u32, what: u32, cause: Cause)
    requires { n ≤ 2147483647 }
    ensures { log.new ≡ put (2 * n + 1) (number cause) (put (2 * n) what log.old) }
{
    let at = 2 * n;
    answers::put(log, at, what);
    answers::put(log, at + 1, cause.number());
}

// Fills the places from where the walk stands up to `end`, where it stands then.
fn fill(
    m: u32,
    from: Mending,
    end: u32,
    mended: &mut [u32],
    painted: &mut [u8],
    log: &mut [u32],
) -> Mending
    requires { (m ≤ 12) × Stands m from.spot × (from.spot.place ≤ end) × (end ≤ 4 ^ m) × Countable from.records from.entries (fills m from.spot.place end) }
    ensures stands_behind { (result.spot.place ≡ end) × Stands m result.spot }
    ensures gap_filled { MakesAny (fills m from.spot.place end) (sheet from.records from.entries mended.old painted.old log.old) (sheet result.records result.entries mended.new painted.new log.new) }
{
    let mut now = from;
    // From block to block, and no count: each says where the next one starts.
    while now.spot.place < end {
        let next = stretch::next_block(m, now.spot, end);
        put_record(mended, painted, now.records, next.key, map::NOT_SEEN);
        put_entry(log, now.entries, next.key, Cause::Gap);
        now.records += 1;
        now.entries += 1;
        now.spot = next.behind;
    }
    now
}

// Keeps the records from n up to `end`, behind so many others. Where there is no room for the first, there is none for any.
fn keep(
    keys: &[u32],
    classes: &[u8],
    n: usize,
    end: usize,
    records: u32,
    mended: &mut [u32],
    painted: &mut [u8],
)
    requires { (n ≤ end) × (end ≤ length keys.now) × (length keys.now ≡ length classes.now) × (records + (end - n) ≤ 2147483647) }
    ensures { KeepsRun keys.now classes.now n end records mended.old painted.old mended.new painted.new }
{
    if (mended.len() <= (records as usize)) & (painted.len() <= (records as usize)) {
        return;
    }
    let mut count = records;
    // By the index: over a `zip` of the two slices the proof has to say where each pair stands in both, and is three times as long.
    for i in n..end {
        put_record(mended, painted, count, keys[i], classes[i]);
        count += 1;
    }
}

// Keeps the records from the next one on as long as each starts where the last one's span ended. None of them is decoded.
fn keep_along(
    m: u32,
    keys: &[u32],
    classes: &[u8],
    from: Progress,
    mended: &mut [u32],
    painted: &mut [u8],
) -> Progress
    requires { (m ≤ 12) × (length keys.now ≡ length classes.now) × (length keys.now ≤ 65536) × (from.next ≤ length keys.now) × Stands m from.now.spot × (from.now.records + length keys.now ≤ 2147483647) }
    ensures { KeepsAlong m keys.now classes.now from.next from.now mended.old painted.old result mended.new painted.new }
{
    let gone = records::along(m, keys, from.now.spot, from.next);
    let next = gone.next;
    let records = from.now.records;
    keep(keys, classes, from.next, next, records, mended, painted);
    let now = Mending {
        spot: gone.spot,
        records: records + (next - from.next) as u32,
        ..from.now
    };
    Progress { now, next }
}

// The next record is dropped, for one of two causes: its key is bad, or it overlaps one that is kept.
fn leave_out(from: Progress, cause: Cause, log: &mut [u32]) -> Progress
    requires { (from.next ≤ 65536) × (from.now.entries < 2147483647) }
    ensures one_entry_more { (result.now.spot ≡ from.now.spot) × (result.now.records ≡ from.now.records) × (result.now.entries ≡ from.now.entries + 1) × (result.next ≡ from.next + 1) }
    ensures entry_put { log.new ≡ put (2 * from.now.entries + 1) (number cause) (put (2 * from.now.entries) from.next log.old) }
{
    put_entry(log, from.now.entries, from.next as u32, cause);
    let now = Mending {
        entries: from.now.entries + 1,
        ..from.now
    };
    Progress {
        now,
        next: from.next + 1,
    }
}

// What a number is as a key, as `digits::read_key` says it, which the check has for itself. Its digits say where its block would start, and there it must be the key of one.
fn form_of(m: u32, key: u32) -> Option<Span>
    requires { m ≤ 12 }
    ensures { result ≡ form_of m key }
{
    let start = digits::start_of(key);
    if blocks::pow4(m) <= start {
        return None;
    }
    let spot = spots::spot_at(m, start);
    let exponent = spots::exponent_at(m, spot, key)?;
    Some(Span { exponent, start })
}

// The next record, which does not start where the walk stands: it is dropped, or the gap before it is filled, and the walk then stands where it starts.
fn mend(
    m: u32,
    keys: &[u32],
    from: Progress,
    mended: &mut [u32],
    painted: &mut [u8],
    log: &mut [u32],
) -> Progress
    requires some_record { (m ≤ 12) × (from.next < length keys.now) × (from.next ≤ 65536) }
    requires stands_elsewhere { Stands m from.now.spot × ToldFit m from.now.spot.place (get_or keys.now from.next 0) None }
    requires countable { Countable from.now.records from.now.entries (mends_of m from.next from.now.spot.place (get_or keys.now from.next 0)) }
    ensures { MendsNext m keys.now from.next from.now mended.old painted.old log.old result mended.new painted.new log.new }
{
    let Some(block) = form_of(m, keys[from.next]) else {
        return leave_out(from, Cause::BadKey, log);
    };
    if block.start < from.now.spot.place {
        return leave_out(from, Cause::Overlap, log);
    }
    let now = fill(m, from.now, block.start, mended, painted, log);
    Progress { now, ..from }
}

// Mends a map: the records of the mended one and the entries of the log are written as far as there is room, and counted.
fn pass(
    m: u32,
    keys: &[u32],
    classes: &[u8],
    mended: &mut [u32],
    painted: &mut [u8],
    log: &mut [u32],
) -> Mended
    requires { (m ≤ 12) × (length keys.now ≡ length classes.now) × (length keys.now ≤ 65536) }
    ensures { Makes keys.now classes.now (mends m keys.now) (sheet 0 0 mended.old painted.old log.old) (sheet result.records result.entries mended.new painted.new log.new) }
{
    let mut at = Progress {
        now: Mending {
            spot: spots::first_spot(m),
            records: 0,
            entries: 0,
        },
        next: 0,
    };
    // No count: it goes on behind wherever `keep_along` stopped.
    loop {
        let kept = keep_along(m, keys, classes, at, mended, painted);
        if kept.next == keys.len() {
            let done = fill(m, kept.now, blocks::pow4(m), mended, painted, log);
            return Mended {
                records: done.records,
                entries: done.entries,
            };
        }
        at = mend(m, keys, kept, mended, painted, log);
    }
}

// Refusals 2 and 8 of a mended map of so many records and a log of so many entries, by the lengths of the slices.
fn room(counted: Mended, mended: usize, painted: usize, log: usize) -> Result<(), Refused>
    requires { counted.entries ≤ 2147483647 }
    ensures { result ≡ verdict (result_refusals counted.records counted.entries mended painted log) }
{
    let records = counted.records;
    if 65536 < records {
        return Err(Cause::BadCount.at(0));
    }
    if mended < (records as usize) {
        return Err(Cause::ShortRoom.at(records));
    }
    if painted < (records as usize) {
        return Err(Cause::ShortRoom.at(records));
    }
    let cells = 2 * counted.entries;
    if log < (cells as usize) {
        return Err(Cause::ShortRoom.at(cells));
    }
    Ok(())
}

// The first pass counts, and the second writes.
pub fn salvage(
    m: u32,
    keys: &[u32],
    classes: &[u8],
    mended: &mut [u32],
    painted: &mut [u8],
    log: &mut [u32],
) -> Result<Mended, Refused>
    ensures { after result (mended.new, painted.new, log.new) ≡ salvage_of m keys.now classes.now mended.old painted.old log.old }
{
    answers::sizes(m, keys.len(), classes.len(), false)?;
    let counted = pass(m, keys, classes, &mut [], &mut [], &mut []);
    room(counted, mended.len(), painted.len(), log.len())?;
    pass(m, keys, classes, mended, painted, log);
    Ok(counted)
}
