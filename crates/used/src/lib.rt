// What any use of a map and a window asks first, and what it leaves.
#![tactic(auto)]

ghost use Rattle.std.specs.Prelude.{◌≡◌, ◌≤◌, length};
ghost use Rattle.answers.specs.Refusals.{verdict};
ghost use Rattle.used.specs.Used.{border_refusals, view_refusals, use_refusals_in, tiled_refusals};

use answers::{Cause, Refused};
use window::Window;

// Refusal 7: a border of so many cells is shorter than a window of w columns is wide.
pub fn wide_enough(w: u16, cells: usize) -> Result<(), Refused>
    ensures { result ≡ verdict (border_refusals w cells) }
{
    if cells < w as usize {
        return Err(Cause::ShortBorder.at(w as u32));
    }
    Ok(())
}

// Refusals 6 and 7.
pub fn in_view(m: u32, window: Window, cells: usize) -> Result<(), Refused>
    requires { m ≤ 12 }
    ensures { result ≡ verdict (view_refusals m window cells) }
{
    if walk::outside(m, window) {
        return Err(Cause::BadWindow.at(0));
    }
    wide_enough(window.w, cells)
}

// Refusals 1 to 7, of a map that is to be whole or may have gaps: whoever uses a map and a window asks this first.
pub fn usable(
    m: u32,
    keys: &[u32],
    classes: &[u8],
    window: Window,
    cells: usize,
    whole: bool,
) -> Result<(), Refused>
    ensures { result ≡ verdict (use_refusals_in whole m keys.now (length classes.now) window cells) }
{
    checks::sound(m, keys, classes, whole)?;
    in_view(m, window, cells)
}

// The same with blocks of exponent up to `top`: refusal 17 stands between 1 and 2.
pub fn usable_tiled(
    m: u32,
    top: u32,
    keys: &[u32],
    classes: &[u8],
    window: Window,
    cells: usize,
    whole: bool,
) -> Result<(), Refused>
    ensures { result ≡ verdict (tiled_refusals whole m top keys.now (length classes.now) window cells) }
{
    answers::tile(m, top)?;
    usable(m, keys, classes, window, cells, whole)
}
