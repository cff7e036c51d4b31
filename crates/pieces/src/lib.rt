// Today's map, which may have gaps, over a complete baseline: the classes of places, piece by piece, and by them a window's totals and whether it has a class.
// A map with gaps by itself is one over a baseline of a single record, the whole picture in the background's class.
#![tactic(auto)]

ghost use Rattle.std.specs.Prelude.{◌≡◌, ◌+◌, ◌-◌, ◌^◌, ◌≤◌, ◌<◌, length, replicate};
ghost use Rattle.key.specs.Picture.{Pixel, place};
ghost use Rattle.key.specs.Key.{block_key};
ghost use Rattle.key.specs.Blocks.{Names};
ghost use Rattle.key.specs.Along.{Begins};
ghost use Rattle.window.specs.Window.{Inside};
ghost use Rattle.window.specs.Rules.{totals_by};
ghost use Rattle.map.specs.Sound.{Follow, Spaced};
ghost use Rattle.pieces.specs.Pair.{Pair, class_over_map};
ghost use Rattle.pieces.specs.Cursors.{Spans, Past, At, StandsAt};
ghost use Rattle.pieces.specs.Pieces.{Uniform, Tallied, Room, Looks, Finds};

use window::{Block, Window};

// A record of a map, by its number and its places, from `start` up to the one before `end`. Behind the last record `start` is the end of the picture, and `end` one more.
#[derive(Clone, Copy)]
pub struct Cursor {
    pub next: usize,
    pub start: u32,
    pub end: u32,
}

// A place, and in each map the first record that ends behind it.
#[derive(Clone, Copy)]
pub struct Stand {
    pub place: u32,
    pub today: Cursor,
    pub under: Cursor,
}

// The block that is next: both maps at its first place, and the place behind its last.
#[derive(Clone, Copy)]
pub struct Ahead {
    pub stand: Stand,
    pub end: u32,
}

// Places of one class, up to the one before `end`.
#[derive(Clone, Copy)]
pub struct Piece {
    pub class: u8,
    pub end: u32,
}

// Places, looked through: one has the class, one was not seen. The second is told only where the first is not so. Two flags and no enum: they are what `exist` asks, one after the other.
#[derive(Clone, Copy, Debug, PartialEq, Eq)]
pub struct Looked {
    pub has: bool,
    pub unseen: bool,
}

// Record n, or what stands behind the last.
fn read_record(m: u32, keys: &[u32], n: usize) -> Cursor
    requires { (m ≤ 12) × Spaced m 0 keys.now × (n ≤ length keys.now) }
    ensures { (result.next ≡ n) × Spans m keys.now result }
{
    if n == keys.len() {
        let picture = blocks::pow4(m);
        return Cursor {
            next: n,
            start: picture,
            end: picture + 1,
        };
    }
    let block = digits::span_of(m, keys[n]);
    let end = block.start + blocks::pow4(block.exponent);
    Cursor {
        next: n,
        start: block.start,
        end,
    }
}

// The first record that ends behind a place, by the key of a block that starts there. The records with a key below it start before the place, and only the last of them can have it.
pub fn seek(m: u32, keys: &[u32], key: u32, a: u32) -> Cursor
    requires { (m ≤ 12) × Spaced m 0 keys.now × Begins m a key }
    ensures { At m keys.now a result }
{
    let next = runs::keys_below(keys, key, 0);
    if next == 0 {
        return read_record(m, keys, 0);
    }
    let before = read_record(m, keys, next - 1);
    if a < before.end {
        return before;
    }
    read_record(m, keys, next)
}

// The same for a later place, not behind the end of the record that was the first: it is so still, or the next one is.
pub fn advance(m: u32, keys: &[u32], cursor: Cursor, a: u32) -> Cursor
    requires { (m ≤ 12) × (length keys.now ≤ 65536) × Spaced m 0 keys.now × (a ≤ 4 ^ m) × Past m keys.now a cursor.next × Spans m keys.now cursor × (a ≤ cursor.end) }
    ensures { At m keys.now a result }
{
    if a < cursor.end {
        return cursor;
    }
    read_record(m, keys, cursor.next + 1)
}

// The same in a map without gaps: the next record starts where this one ends, and only its exponent is read.
fn advance_whole(m: u32, keys: &[u32], cursor: Cursor, a: u32) -> Cursor
    requires { (m ≤ 12) × (length keys.now ≤ 65536) × Follow m 0 keys.now × (a ≤ 4 ^ m) × Past m keys.now a cursor.next × Spans m keys.now cursor × (a ≤ cursor.end) }
    ensures { At m keys.now a result }
{
    if a < cursor.end {
        return cursor;
    }
    let next = cursor.next + 1;
    let start = cursor.end;
    if next == keys.len() {
        return Cursor {
            next,
            start,
            end: start + 1,
        };
    }
    let end = start + blocks::pow4(digits::zeros_of(m, keys[next]));
    Cursor { next, start, end }
}

// The same where the first record that ends behind another place is known: it may be the one, and is not sought then. Along a row of a window it mostly is where blocks are small.
pub fn seek_near(m: u32, keys: &[u32], key: u32, a: u32, known: u32, cursor: Cursor) -> Cursor
    requires { (m ≤ 12) × Spaced m 0 keys.now × Begins m a key × At m keys.now known cursor }
    ensures { At m keys.now a result }
{
    if cursor.end <= a {
        return seek(m, keys, key, a);
    }
    if known <= a {
        return cursor;
    }
    if cursor.start <= a {
        return cursor;
    }
    seek(m, keys, key, a)
}

// Both maps at the first place.
pub fn first_stand(m: u32, keys: &[u32], base: &[u32]) -> Stand
    requires { (m ≤ 12) × Spaced m 0 keys.now × Spaced m 0 base.now }
    ensures { StandsAt m keys.now base.now result }
{
    let today = read_record(m, keys, 0);
    let under = read_record(m, base, 0);
    Stand {
        place: 0,
        today,
        under,
    }
}

// At the place at which the block of a key starts, where another stand is known.
pub fn stand_at(m: u32, keys: &[u32], base: &[u32], known: Stand, key: u32, a: u32) -> Stand
    requires { (m ≤ 12) × Spaced m 0 keys.now × Spaced m 0 base.now × StandsAt m keys.now base.now known × Begins m a key }
    ensures { (result.place ≡ a) × StandsAt m keys.now base.now result }
{
    let today = seek_near(m, keys, key, a, known.place, known.today);
    let under = seek_near(m, base, key, a, known.place, known.under);
    Stand {
        place: a,
        today,
        under,
    }
}

// At a later place, behind the end of neither record.
pub fn go_on(m: u32, keys: &[u32], base: &[u32], stand: Stand, a: u32) -> Stand
    requires { (m ≤ 12) × (length keys.now ≤ 65536) × (length base.now ≤ 65536) × Spaced m 0 keys.now × Follow m 0 base.now × StandsAt m keys.now base.now stand × (stand.place ≤ a) × (a ≤ 4 ^ m) × (a ≤ stand.today.end) × (a ≤ stand.under.end) }
    ensures { (result.place ≡ a) × StandsAt m keys.now base.now result }
{
    let today = advance(m, keys, stand.today, a);
    let under = advance_whole(m, base, stand.under, a);
    Stand {
        place: a,
        today,
        under,
    }
}

// The next piece, not beyond `stop`: where today's record has the place, up to its end; where none has it, of the baseline, up to today's next. It ends with the baseline's record.
// m and the keys are there for the contract alone.
pub fn next_piece(
    m: u32,
    keys: &[u32],
    classes: &[u8],
    base: &[u32],
    beneath: &[u8],
    stand: Stand,
    stop: u32,
) -> Piece
    requires { Pair m keys.now (length classes.now) base.now (length beneath.now) × StandsAt m keys.now base.now stand × (stand.place < stop) × (stop ≤ 4 ^ m) }
    ensures { Uniform (class_over_map m keys.now classes.now base.now beneath.now) stand.place stop result × (result.end ≤ stand.today.end) × (result.end ≤ stand.under.end) }
{
    let today = stand.today;
    let under = stand.under;
    let near = under.end.min(stop);
    if stand.place < today.start {
        let n = under.next;
        let end = today.start.min(near);
        return Piece {
            class: beneath[n],
            end,
        };
    }
    let n = today.next;
    let end = today.end.min(near);
    Piece {
        class: classes[n],
        end,
    }
}

// Adds to each class's total the number of places that have it, up to `end`.
pub fn tally(
    m: u32,
    keys: &[u32],
    classes: &[u8],
    base: &[u32],
    beneath: &[u8],
    first: Stand,
    end: u32,
    totals: &mut [u32; 256],
)
    requires { Pair m keys.now (length classes.now) base.now (length beneath.now) × StandsAt m keys.now base.now first × (first.place ≤ end) × (end ≤ 4 ^ m) × (length totals.old ≡ 256) × Room totals.old (end - first.place) }
    ensures { Tallied (class_over_map m keys.now classes.now base.now beneath.now) first.place end totals.old totals.new }
{
    let mut stand = first;
    // From piece to piece, and no count: how far the next one goes both maps say.
    while stand.place < end {
        let piece = next_piece(m, keys, classes, base, beneath, stand, end);
        let class = piece.class as usize;
        totals[class] += piece.end - stand.place;
        stand = go_on(m, keys, base, stand, piece.end);
    }
}

// Whether some place up to `end` has the class: as far as the first that has it. And where none has it, whether one was not seen.
pub fn look(
    m: u32,
    keys: &[u32],
    classes: &[u8],
    base: &[u32],
    beneath: &[u8],
    first: Stand,
    end: u32,
    class: u8,
) -> Looked
    requires { Pair m keys.now (length classes.now) base.now (length beneath.now) × StandsAt m keys.now base.now first × (first.place ≤ end) × (end ≤ 4 ^ m) }
    ensures { Looks (class_over_map m keys.now classes.now base.now beneath.now) first.place end class result }
{
    let mut stand = first;
    let mut unseen = false;
    // From piece to piece, and no count: how far the next one goes both maps say.
    while stand.place < end {
        let piece = next_piece(m, keys, classes, base, beneath, stand, end);
        if piece.class == class {
            return Looked { has: true, unseen };
        }
        unseen |= piece.class == map::NOT_SEEN;
        stand = go_on(m, keys, base, stand, piece.end);
    }
    Looked { has: false, unseen }
}

// A block of the picture, where a stand is known.
pub fn block_ahead(m: u32, keys: &[u32], base: &[u32], known: Stand, block: Block) -> Ahead
    requires { (m ≤ 12) × Spaced m 0 keys.now × Spaced m 0 base.now × StandsAt m keys.now base.now known × (block.exponent ≤ m) × Pixel m block.row block.col × Names m (block_key m block.exponent block.row block.col) block.exponent (place block.row block.col) }
    ensures { (result.stand.place ≡ place block.row block.col) × (result.end ≡ place block.row block.col + 4 ^ block.exponent) × (result.end ≤ 4 ^ m) × StandsAt m keys.now base.now result.stand }
{
    let key = blocks::block_key(m, block.exponent, block.row, block.col);
    let start = blocks::place(block.row, block.col);
    let end = start + blocks::pow4(block.exponent);
    let stand = stand_at(m, keys, base, known, key, start);
    Ahead { stand, end }
}

// How many pixels of the window each class has: along its maximal blocks.
pub fn add_up(
    m: u32,
    keys: &[u32],
    classes: &[u8],
    base: &[u32],
    beneath: &[u8],
    window: Window,
    totals: &mut [u32; 256],
)
    requires { Pair m keys.now (length classes.now) base.now (length beneath.now) × Inside m window × (totals.old ≡ replicate 256 0) }
    ensures { totals.new ≡ totals_by (class_over_map m keys.now classes.now base.now beneath.now) window }
{
    let mut at = first_stand(m, keys, base);
    for block in walk::blocks(window, m) {
        let ahead = block_ahead(m, keys, base, at, block);
        at = ahead.stand;
        tally(m, keys, classes, base, beneath, at, ahead.end, totals);
    }
}

// Whether some pixel of the window has the class; and where none has it, whether one was not seen.
pub fn find(
    m: u32,
    keys: &[u32],
    classes: &[u8],
    base: &[u32],
    beneath: &[u8],
    window: Window,
    class: u8,
) -> Looked
    requires { Pair m keys.now (length classes.now) base.now (length beneath.now) × Inside m window }
    ensures { Finds (class_over_map m keys.now classes.now base.now beneath.now) window class result }
{
    let mut at = first_stand(m, keys, base);
    let mut unseen = false;
    for block in walk::blocks(window, m) {
        let ahead = block_ahead(m, keys, base, at, block);
        at = ahead.stand;
        let looked = look(m, keys, classes, base, beneath, at, ahead.end, class);
        if looked.has {
            return looked;
        }
        unseen |= looked.unseen;
    }
    Looked { has: false, unseen }
}
