// Today's map, which may have gaps, over the season's baseline: a pixel has the class of today's record, or else that of the baseline's. The m of the baseline is `depth`.
#![tactic(auto)]

ghost use Rattle.std.specs.Prelude.{◌≡◌, false, ◌+◌, ◌^◌, ◌≤◌, length};
ghost use Rattle.answers.specs.Cells.{Listed};
ghost use Rattle.answers.specs.After.{after};
ghost use Rattle.key.specs.Blocks.{SomeBlock};
ghost use Rattle.window.specs.Window.{Inside};
ghost use Rattle.map.specs.Sound.{Spaced};
ghost use Rattle.pieces.specs.Pair.{Pair, class_over_map};
ghost use Rattle.pieces.specs.Cursors.{StandsAt};
ghost use Rattle.select.specs.Select.{keys_into, select_keys};
ghost use Rattle.overlay.specs.Select.{class_blocks, class_selection};
ghost use Rattle.overlay.specs.Meeting.{Meeting};
ghost use Rattle.overlay.specs.declared.Layer.TheVariants.{Neither};
ghost use Rattle.overlay.specs.Overlay.{of_map, pairing, exist_over, report_over, select_over, view_of, part_in};

use answers::{Cause, Refused};
use exist::Existence;
use pieces::Ahead;
use window::Window;

// Which of the two maps a refusal is of: today's, the baseline, or neither.
#[derive(Clone, Copy, Debug, PartialEq, Eq)]
pub enum Layer {
    Neither,
    Today,
    Baseline,
}

// Why there is no answer: a map is refused, or the two cannot be laid over each other, or what is asked of them is refused.
#[derive(Clone, Copy, Debug, PartialEq, Eq)]
pub struct Unpaired {
    pub map: Layer,
    pub refused: Refused,
}

impl Layer {
    fn refuses(self, refused: Refused) -> Unpaired
        ensures { result ≡ of_map self refused }
    {
        Unpaired { map: self, refused }
    }
}

impl From<Refused> for Unpaired {
    ghost from_gives = { λ refused u. u ≡ of_map Neither refused };

    fn from(refused: Refused) -> Unpaired {
        Layer::Neither.refuses(refused)
    }
}

// So many records of a map, from the first on.
#[derive(Clone, Copy)]
pub struct Records {
    pub first: u32,
    pub count: u32,
}

// Which part of whose classes a viewer is lent.
#[derive(Clone, Copy, Debug, PartialEq, Eq)]
pub enum Viewed {
    Today { first: u32, count: u32 },
    Baseline { first: u32, count: u32 },
}

// Refusals 1 to 4 of today's map, 1 to 5 of the baseline, and 15.
pub fn check_pair(
    m: u32,
    keys: &[u32],
    classes: &[u8],
    depth: u32,
    base: &[u32],
    beneath: &[u8],
) -> Result<(), Unpaired>
    ensures { result ≡ pairing m keys.now (length classes.now) depth base.now (length beneath.now) }
{
    checks::sound(m, keys, classes, false).map_err(|refused| Layer::Today.refuses(refused))?;
    checks::sound(depth, base, beneath, true).map_err(|refused| Layer::Baseline.refuses(refused))?;
    if m != depth {
        return Err(Layer::Neither.refuses(Cause::OtherM.at(0)));
    }
    Ok(())
}

// Of the block ahead, lists the fewest blocks that make up its places of the class behind n others. How many there are then.
// Pieces of the class that follow one another are joined: the run from `from` on goes on with the next piece, or is listed.
fn put_class(
    m: u32,
    keys: &[u32],
    classes: &[u8],
    base: &[u32],
    beneath: &[u8],
    ahead: Ahead,
    class: u8,
    out: &mut [u32],
    n: u32,
) -> u32
    requires paired { Pair m keys.now (length classes.now) base.now (length beneath.now) × StandsAt m keys.now base.now ahead.stand × (ahead.stand.place ≤ ahead.end) × (ahead.end ≤ 4 ^ m) }
    requires end_bound { n + length (class_blocks m (class_over_map m keys.now classes.now base.now beneath.now) class ahead.stand.place ahead.end) ≤ 4294967295 }
    ensures { Listed n (class_blocks m (class_over_map m keys.now classes.now base.now beneath.now) class ahead.stand.place ahead.end) out.old result out.new }
{
    let end = ahead.end;
    let mut stand = ahead.stand;
    let mut from = stand.place;
    let mut k = n;
    // From piece to piece, and no count: how far the next one goes both maps say.
    while stand.place < end {
        let at = stand.place;
        let piece = pieces::next_piece(m, keys, classes, base, beneath, stand, end);
        stand = pieces::go_on(m, keys, base, stand, piece.end);
        if piece.class != class {
            k = stretch::put_between(m, from, at, out, k);
            from = piece.end;
        }
    }
    stretch::put_between(m, from, end, out, k)
}

// Goes through the window's maximal blocks and lists what each has of the class. How many keys there are; those are written for which there is room.
fn put_all(
    m: u32,
    keys: &[u32],
    classes: &[u8],
    base: &[u32],
    beneath: &[u8],
    window: Window,
    class: u8,
    out: &mut [u32],
) -> u32
    requires { Pair m keys.now (length classes.now) base.now (length beneath.now) × Inside m window }
    ensures { Listed 0 (class_selection m (class_over_map m keys.now classes.now base.now beneath.now) window class) out.old result out.new }
{
    let mut at = pieces::first_stand(m, keys, base);
    let mut n: u32 = 0;
    for block in walk::blocks(window, m) {
        let ahead = pieces::block_ahead(m, keys, base, at, block);
        at = ahead.stand;
        n = put_class(m, keys, classes, base, beneath, ahead, class, out, n);
    }
    n
}

// The keys of the class, in the order of maximal blocks. A slice with a cell for each pixel of the window takes one pass; otherwise a first pass counts them and writes none, since 8
// writes nothing into the slice.
fn list_class(
    m: u32,
    keys: &[u32],
    classes: &[u8],
    base: &[u32],
    beneath: &[u8],
    window: Window,
    class: u8,
    out: &mut [u32],
) -> Result<u32, Refused>
    requires { Pair m keys.now (length classes.now) base.now (length beneath.now) × Inside m window }
    ensures { after result out.new ≡ keys_into (class_selection m (class_over_map m keys.now classes.now base.now beneath.now) window class) out.old }
{
    let most = (window.h as usize) * (window.w as usize);
    if out.len() < most {
        let needed = put_all(m, keys, classes, base, beneath, window, class, &mut []);
        if out.len() < needed as usize {
            return Err(Cause::ShortRoom.at(needed));
        }
    }
    let count = put_all(m, keys, classes, base, beneath, window, class, out);
    Ok(count)
}

// The keys of a class in the window, of maps that were checked. Refusals 6 to 8.
fn select_pair(
    m: u32,
    keys: &[u32],
    classes: &[u8],
    base: &[u32],
    beneath: &[u8],
    window: Window,
    class: u8,
    border: &mut [u16],
    out: &mut [u32],
) -> Result<u32, Refused>
    requires { Pair m keys.now (length classes.now) base.now (length beneath.now) }
    ensures { after result (border.new, out.new) ≡ select_keys false (class_selection m (class_over_map m keys.now classes.now base.now beneath.now) window class) m m keys.now (length classes.now) window border.old out.old }
{
    used::in_view(m, window, border.len())?;
    sparse::spend(window, border);
    list_class(m, keys, classes, base, beneath, window, class, out)
}

// Whether some pixel of the window has the class: yes, no, or it cannot tell.
pub fn exist(
    m: u32,
    keys: &[u32],
    classes: &[u8],
    depth: u32,
    base: &[u32],
    beneath: &[u8],
    window: Window,
    class: u8,
    border: &mut [u16],
) -> Result<Existence, Unpaired>
    ensures { after result border.new ≡ exist_over m keys.now classes.now depth base.now beneath.now window class border.old }
{
    check_pair(m, keys, classes, depth, base, beneath)?;
    let existence = sparse::exist_over(m, keys, classes, base, beneath, window, class, border)?;
    Ok(existence)
}

// How many pixels of the window each class has.
pub fn report(
    m: u32,
    keys: &[u32],
    classes: &[u8],
    depth: u32,
    base: &[u32],
    beneath: &[u8],
    window: Window,
    border: &mut [u16],
    out: &mut [u32],
) -> Result<u32, Unpaired>
    ensures { after result (border.new, out.new) ≡ report_over m keys.now classes.now depth base.now beneath.now window border.old out.old }
{
    check_pair(m, keys, classes, depth, base, beneath)?;
    let pixels = sparse::report_over(m, keys, classes, base, beneath, window, border, out)?;
    Ok(pixels)
}

// The keys of a class in the window: of each maximal block the fewest that make up its pixels of the class.
pub fn select(
    m: u32,
    keys: &[u32],
    classes: &[u8],
    depth: u32,
    base: &[u32],
    beneath: &[u8],
    window: Window,
    class: u8,
    border: &mut [u16],
    out: &mut [u32],
) -> Result<u32, Unpaired>
    ensures { after result (border.new, out.new) ≡ select_over m keys.now classes.now depth base.now beneath.now window class border.old out.old }
{
    check_pair(m, keys, classes, depth, base, beneath)?;
    let count = select_pair(m, keys, classes, base, beneath, window, class, border, out)?;
    Ok(count)
}

// The records of a map that overlap the block of a key: from the first that ends behind its first place up to those with keys beyond its own. `runs::records_of`, which says how far
// they reach too, is left to opening alone.
fn overlapping(m: u32, keys: &[u32], key: u32) -> Records
    requires { (m ≤ 12) × (length keys.now ≤ 65536) × Spaced m 0 keys.now × SomeBlock m key }
    ensures { Meeting m keys.now key result }
{
    let block = digits::span_of(m, key);
    let from = pieces::seek(m, keys, key, block.start).next;
    let beyond = key + blocks::pow5(block.exponent);
    let count = runs::keys_below(keys, beyond, from) - from;
    Records {
        first: from as u32,
        count: count as u32,
    }
}

// Which part of whose classes a viewer is lent for the block of a key: those of today's records that overlap it, or where none does those of the baseline's.
// The key is looked at as the check looks at that of a record: 27 is given where it would give 3.
pub fn view(
    m: u32,
    keys: &[u32],
    classes: &[u8],
    depth: u32,
    base: &[u32],
    beneath: &[u8],
    key: u32,
) -> Result<Viewed, Unpaired>
    ensures { result ≡ view_of m keys.now (length classes.now) depth base.now (length beneath.now) key }
{
    check_pair(m, keys, classes, depth, base, beneath)?;
    // The check of a map of the key alone.
    let block: [u32; 1] = [key];
    let class: [u8; 1] = [0];
    if checks::sound(m, &block, &class, false).is_err() {
        return Err(Layer::Neither.refuses(Cause::NoBlock.at(0)));
    }
    let today = overlapping(m, keys, key);
    if today.count == 0 {
        let under = overlapping(m, base, key);
        return Ok(Viewed::Baseline {
            first: under.first,
            count: under.count,
        });
    }
    Ok(Viewed::Today {
        first: today.first,
        count: today.count,
    })
}

// The part itself, of the caller's own slice; empty on a refusal.
pub fn part<'a>(
    m: u32,
    keys: &[u32],
    classes: &'a [u8],
    depth: u32,
    base: &[u32],
    beneath: &'a [u8],
    key: u32,
) -> &'a [u8]
    ensures { result.now ≡ part_in classes.now beneath.now (view_of m keys.now (length classes.now) depth base.now (length beneath.now) key) }
{
    match view(m, keys, classes, depth, base, beneath, key) {
        Ok(Viewed::Today { first, count }) => {
            let start = first as usize;
            let end = start + (count as usize);
            &classes[start..end]
        }
        Ok(Viewed::Baseline { first, count }) => {
            let start = first as usize;
            let end = start + (count as usize);
            &beneath[start..end]
        }
        Err(_) => &classes[..0],
    }
}
