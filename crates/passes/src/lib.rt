// All the openings of a window, in one pass.
#![tactic(auto)]

ghost use Rattle.std.specs.Prelude.{◌≡◌, length};
ghost use Rattle.border.specs.Cells.{entered};
ghost use Rattle.border.specs.Found.{Passed};
ghost use Rattle.used.specs.Used.{Usable};

use border::{Opening, Totals};
use window::Window;

// Writes an opening behind n others, where there is room for it.
fn put_opening(out: &mut [u32], n: u32, opening: Opening)
    ensures { out.new ≡ entered n opening.key opening.run.first opening.run.count out.old }
{
    let at = 3 * (n as usize);
    if out.len() < at + 3 {
        return;
    }
    out[at] = opening.key;
    out[at + 1] = opening.run.first;
    out[at + 2] = opening.run.count;
}

// Goes through the maximal blocks once, with a border filled anew. Of the openings, those are written for which there is room.
pub fn pass(
    m: u32,
    top: u32,
    keys: &[u32],
    window: Window,
    border: &mut [u16],
    out: &mut [u32],
) -> Totals
    requires { Usable m top keys.now window (length border.old) }
    ensures { Passed m top keys.now window border.old out.old result border.new out.new }
{
    step::fill(border, 0, window.w as usize, window.r0);
    let mut at = openings::start(window);
    let mut openings: u32 = 0;
    let mut records: u32 = 0;
    // A call and no iterator: it writes to the border, which is lent to it each time.
    while let Some(opening) = openings::next_opening(m, top, keys, window, &mut at, border) {
        put_opening(out, openings, opening);
        openings += 1;
        records += opening.run.count;
    }
    Totals { openings, records }
}
