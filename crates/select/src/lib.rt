// Select: the keys of a class in a window.
#![tactic(auto)]

ghost use Rattle.std.specs.Prelude.{◌≡◌, length};
ghost use Rattle.answers.specs.Cells.{Listed};
ghost use Rattle.answers.specs.After.{after};
ghost use Rattle.used.specs.Used.{Usable};
ghost use Rattle.select.specs.Select.{selection, keys_into, select_tiled};

use answers::{Cause, Refused};
use window::Window;

// Goes through the maximal blocks of exponent up to `top` and lists what each has. How many keys there are; those are written for which there is room. A block in one of the two
// records found last is not searched for.
fn pick_all(
    m: u32,
    keys: &[u32],
    classes: &[u8],
    window: Window,
    top: u32,
    class: u8,
    out: &mut [u32],
) -> u32
    requires { Usable m top keys.now window window.w × (length keys.now ≡ length classes.now) }
    ensures { Listed 0 (selection m top keys.now classes.now window class) out.old result out.new }
{
    let mut n: u32 = 0;
    let mut seen = near::first_seen(m, keys);
    for block in walk::blocks(window, top) {
        let key = blocks::block_key(m, block.exponent, block.row, block.col);
        if near::lies_in(seen.near, key) {
            n = pick::pick_around(classes, class, key, seen.near.first as usize, out, n);
            continue;
        }
        if near::lies_in(seen.other, key) {
            seen = near::exchanged(seen);
            n = pick::pick_around(classes, class, key, seen.near.first as usize, out, n);
            continue;
        }
        seen = near::look_up(m, keys, key, block.exponent, seen);
        n = pick::pick(keys, classes, class, key, block.exponent, seen.run, out, n);
    }
    n
}

// The keys of the class, in the order of maximal blocks. A slice with room for as many as there can be takes one pass; otherwise a first pass counts them and writes none, since 8
// writes nothing into the slice.
pub fn list_keys(
    m: u32,
    keys: &[u32],
    classes: &[u8],
    window: Window,
    top: u32,
    class: u8,
    out: &mut [u32],
) -> Result<u32, Refused>
    requires { Usable m top keys.now window window.w × (length keys.now ≡ length classes.now) }
    ensures { after result out.new ≡ keys_into (selection m top keys.now classes.now window class) out.old }
{
    if out.len() < walk::most_blocks(window, top) + keys.len() {
        let needed = pick_all(m, keys, classes, window, top, class, &mut []);
        if out.len() < needed as usize {
            return Err(Cause::ShortRoom.at(needed));
        }
    }
    let count = pick_all(m, keys, classes, window, top, class, out);
    Ok(count)
}

// The keys of a class in the window, with blocks of exponent up to `top`. Nothing of it needs the border, which is spent at once.
pub fn select(
    m: u32,
    top: u32,
    keys: &[u32],
    classes: &[u8],
    window: Window,
    class: u8,
    border: &mut [u16],
    out: &mut [u32],
) -> Result<u32, Refused>
    ensures { after result (border.new, out.new) ≡ select_tiled m top keys.now classes.now window class border.old out.old }
{
    used::usable_tiled(m, top, keys, classes, window, border.len(), true)?;
    border[..window.w as usize].fill(window.r0 + window.h);
    list_keys(m, keys, classes, window, top, class, out)
}
