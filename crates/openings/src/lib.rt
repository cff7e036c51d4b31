// From opening to opening.
#![tactic(auto)]

ghost use Rattle.std.specs.Prelude.{◌≡◌, length};
ghost use Rattle.border.specs.Found.{walk, Reached, Finds};
ghost use Rattle.used.specs.Used.{Usable};

use border::{Opening, Walk};
use window::Window;

// The walk stands at the window's first pixel, and all columns are left.
pub fn start(window: Window) -> Walk
    ensures { result ≡ walk window.r0 window.c0 window.w }
{
    Walk {
        row: window.r0,
        col: window.c0,
        left: window.w,
    }
}

// The next opening: skips blocks until one is opened, and the walk stands behind it then. Where no column is left, all is out, and the walk ends.
pub fn next_opening(
    m: u32,
    top: u32,
    keys: &[u32],
    window: Window,
    at: &mut Walk,
    border: &mut [u16],
) -> Option<Opening>
    requires { Usable m top keys.now window (length border.old) × Reached m top keys.now window at.old border.old }
    ensures { Finds m top keys.now window at.old border.old result at.new border.new }
{
    if at.left == 0 {
        return None;
    }
    let mut ahead = walk::blocks_from(window, top, at.row, at.col);
    // No `for`: where the iterator stands behind an opened block is told to the caller.
    while let Some(block) = ahead.next() {
        if let Some(opened) = step::step(m, top, keys, window, block, border) {
            *at = Walk {
                row: ahead.row,
                col: ahead.col,
                left: at.left - opened.closed,
            };
            return Some(Opening {
                block,
                key: opened.key,
                run: opened.run,
            });
        }
    }
    None
}
