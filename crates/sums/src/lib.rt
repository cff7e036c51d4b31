// The pixels of each class in a window, gathered from opening to opening.
#![tactic(auto)]

ghost use Rattle.std.specs.Prelude.{◌≡◌, length, replicate};
ghost use Rattle.map.specs.Sound.{Follow};
ghost use Rattle.used.specs.Used.{Usable, spent};
ghost use Rattle.totals.specs.Totals.{totals};

use window::Window;

// Gathers the totals of all classes from opening to opening, from zeros on. In a whole map, those are the totals of all pixels.
pub fn count(
    m: u32,
    keys: &[u32],
    classes: &[u8],
    window: Window,
    border: &mut [u16],
    counts: &mut [u32; 256],
)
    requires { Usable m m keys.now window (length border.old) × (length keys.now ≡ length classes.now) × (counts.old ≡ replicate 256 0) × Follow m 0 keys.now }
    ensures { (counts.new ≡ totals m keys.now classes.now window) × (border.new ≡ spent window border.old) }
{
    step::fill(border, 0, window.w as usize, window.r0);
    let mut at = openings::start(window);
    // A call and no iterator: it writes to the border, which is lent to it each time.
    while let Some(opening) = openings::next_opening(m, m, keys, window, &mut at, border) {
        gather::gather(m, keys, classes, window, opening, counts);
    }
}
