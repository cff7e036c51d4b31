// Decomposing a window: the keys of its maximal blocks.
#![tactic(auto)]

ghost use Rattle.std.specs.Prelude.{◌≡◌, ◌≤◌};
ghost use Rattle.answers.specs.Cells.{Listed};
ghost use Rattle.answers.specs.After.{after};
ghost use Rattle.window.specs.Window.{Inside, outside};
ghost use Rattle.window.specs.Keys.{keys_of};
ghost use Rattle.decompose.specs.Decompose.{decompose_tiled};

use answers::{Cause, Refused};
use window::Window;

// Goes through the maximal blocks once and lists their keys. How many there are; those are written for which there is room.
fn list_blocks(m: u32, window: Window, top: u32, out: &mut [u32]) -> u32
    requires { (m ≤ 12) × (top ≤ m) × Inside m window }
    ensures { Listed 0 (keys_of m top window) out.old result out.new }
{
    let mut n: u32 = 0;
    for block in walk::blocks(window, top) {
        let key = blocks::block_key(m, block.exponent, block.row, block.col);
        answers::put(out, n, key);
        n += 1;
    }
    n
}

// The keys of the window's maximal blocks among those of exponent up to `top`: how many there are. A slice with room for as many as a window can have takes one pass; otherwise a
// first pass counts them and writes none, since 8 writes nothing into the slice.
pub fn decompose(m: u32, top: u32, window: Window, out: &mut [u32]) -> Result<u32, Refused>
    ensures { after result out.new ≡ decompose_tiled m top window out.old }
{
    answers::tile(m, top)?;
    if walk::outside(m, window) {
        return Err(Cause::BadWindow.at(0));
    }
    if out.len() < walk::most_blocks(window, top) {
        let needed = list_blocks(m, window, top, &mut []);
        if out.len() < needed as usize {
            return Err(Cause::ShortRoom.at(needed));
        }
    }
    Ok(list_blocks(m, window, top, out))
}
