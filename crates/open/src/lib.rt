// Opening a window on a map.
#![tactic(auto)]

ghost use Rattle.std.specs.Prelude.{◌≡◌, length};
ghost use Rattle.answers.specs.After.{after};
ghost use Rattle.open.specs.Open.{open_in};

use answers::{Cause, Refused};
use border::Totals;
use window::Window;

// Opens the window on the map, which is to be whole or may have gaps, with blocks of exponent up to `top`: how many openings there are and how many records they hand out.
// A slice with room for as many openings as a window can have takes one pass; otherwise a first pass counts them and writes none, since 8 writes nothing into the slice.
pub fn open(
    m: u32,
    top: u32,
    keys: &[u32],
    classes: &[u8],
    window: Window,
    border: &mut [u16],
    out: &mut [u32],
    whole: bool,
) -> Result<Totals, Refused>
    ensures { after result (border.new, out.new) ≡ open_in whole m top keys.now (length classes.now) window border.old out.old }
{
    used::usable_tiled(m, top, keys, classes, window, border.len(), whole)?;
    if out.len() < 3 * walk::most_blocks(window, top) {
        let counted = passes::pass(m, top, keys, window, border, &mut []);
        let needed = 3 * counted.openings;
        if out.len() < needed as usize {
            return Err(Cause::ShortRoom.at(needed));
        }
    }
    Ok(passes::pass(m, top, keys, window, border, out))
}
