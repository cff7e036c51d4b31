// Select on maps with gaps: the keys of a class in a window, where a pixel in no record has the class of the background.
#![tactic(auto)]

ghost use Rattle.std.specs.Prelude.{◌≡◌, length};
ghost use Rattle.answers.specs.Cells.{Listed};
ghost use Rattle.answers.specs.After.{after};
ghost use Rattle.map.specs.Runs.{run_of, BlockOf};
ghost use Rattle.used.specs.Used.{Usable};
ghost use Rattle.select.specs.Select.{keys_into};
ghost use Rattle.sparse_select.specs.Select.{sparse_selected, sparse_selection};
ghost use Rattle.sparse_select.specs.Asked.{Asked};

use answers::{Cause, Refused};
use map::Run;
use window::Window;

// Of a block beyond which its records do not reach, lists the gaps and the records of the class behind n others, where the class is that of the background. How many there are then.
fn put_run(
    m: u32,
    keys: &[u32],
    classes: &[u8],
    class: u8,
    key: u32,
    run: Run,
    out: &mut [u32],
    n: u32,
) -> u32
    requires { Asked m keys.now classes.now class key run n × BlockOf m key run.reach }
    ensures { Listed n (sparse_selected m class keys.now classes.now class key) out.old result out.new }
{
    let block = digits::span_of(m, key);
    let end = block.start + blocks::pow4(block.exponent);
    let mut spot = spots::begin(m, key, block.exponent, block.start);
    let mut k = n;
    let first = run.first as usize;
    for i in first..first + (run.count as usize) {
        let own = keys[i];
        let at = digits::span_of(m, own);
        k = stretch::put_stretch(m, spot, at.start, out, k);
        k = pick::pick_around(classes, class, own, i, out, k);
        spot = spots::advance(m, own, at.exponent, at.start);
    }
    stretch::put_stretch(m, spot, end, out, k)
}

// The same of any block, of its key and exponent: with the records inside it; where there is none, its own key if a record of the class is around it, or no record at all.
fn put_block(
    m: u32,
    keys: &[u32],
    classes: &[u8],
    class: u8,
    key: u32,
    exponent: u32,
    out: &mut [u32],
    n: u32,
) -> u32
    requires { Asked m keys.now classes.now class key (run_of m keys.now key) n × BlockOf m key exponent }
    ensures { Listed n (sparse_selected m class keys.now classes.now class key) out.old result out.new }
{
    let first = runs::keys_below(keys, key, 0);
    let count = runs::records_inside(m, keys, key, exponent, first);
    if count == 0 {
        let run = runs::record_around(m, keys, key, exponent, first);
        if exponent < run.reach {
            return pick::pick_around(classes, class, key, run.first as usize, out, n);
        }
        answers::put(out, n, key);
        return n + 1;
    }
    let run = runs::inside(first, count, exponent);
    put_run(m, keys, classes, class, key, run, out, n)
}

// Goes through the maximal blocks of exponent up to `top` and lists what each has of the background. How many keys there are; those are written for which there is room.
fn put_all(
    m: u32,
    keys: &[u32],
    classes: &[u8],
    window: Window,
    top: u32,
    class: u8,
    out: &mut [u32],
) -> u32
    requires { Usable m top keys.now window window.w × (length keys.now ≡ length classes.now) }
    ensures { Listed 0 (sparse_selection m top class keys.now classes.now window class) out.old result out.new }
{
    let mut n: u32 = 0;
    for block in walk::blocks(window, top) {
        let key = blocks::block_key(m, block.exponent, block.row, block.col);
        n = put_block(m, keys, classes, class, key, block.exponent, out, n);
    }
    n
}

// The keys of the background, in the order of maximal blocks. A slice with a cell for each pixel of the window takes one pass; otherwise a first pass counts them and writes none,
// since 8 writes nothing into the slice.
fn list_background(
    m: u32,
    keys: &[u32],
    classes: &[u8],
    window: Window,
    top: u32,
    class: u8,
    out: &mut [u32],
) -> Result<u32, Refused>
    requires { Usable m top keys.now window window.w × (length keys.now ≡ length classes.now) }
    ensures { after result out.new ≡ keys_into (sparse_selection m top class keys.now classes.now window class) out.old }
{
    let most = (window.h as usize) * (window.w as usize);
    if out.len() < most {
        let needed = put_all(m, keys, classes, window, top, class, &mut []);
        if out.len() < needed as usize {
            return Err(Cause::ShortRoom.at(needed));
        }
    }
    let count = put_all(m, keys, classes, window, top, class, out);
    Ok(count)
}

// The keys of the class, in the order of maximal blocks. Gaps count only for the class of the background; for any other it is as in a map without gaps.
pub fn list_sparse(
    m: u32,
    background: u8,
    keys: &[u32],
    classes: &[u8],
    window: Window,
    top: u32,
    class: u8,
    out: &mut [u32],
) -> Result<u32, Refused>
    requires { Usable m top keys.now window window.w × (length keys.now ≡ length classes.now) }
    ensures { after result out.new ≡ keys_into (sparse_selection m top background keys.now classes.now window class) out.old }
{
    if class != background {
        return select::list_keys(m, keys, classes, window, top, class, out);
    }
    list_background(m, keys, classes, window, top, class, out)
}
