// The parts that the records of one opening have in a window, added to the totals of their classes.
#![tactic(auto)]

ghost use Rattle.std.specs.Prelude.{◌≡◌, ◌+◌, ◌≤◌, length};
ghost use Rattle.lists.specs.Lists.{up_from};
ghost use Rattle.window.specs.Window.{In, Inside};
ghost use Rattle.totals.specs.Gather.{shared, clipped, gathered, Hands, Fills, Gathering};

use border::Opening;
use window::Window;

// How many numbers the n from a on and the k from b on share.
fn shared(a: u16, n: u16, b: u16, k: u16) -> u16
    requires { (a + n ≤ 65535) × (b + k ≤ 65535) }
    ensures { result ≡ shared a n b k }
{
    (a + n).min(b + k).saturating_sub(a.max(b))
}

// How many pixels the window shares with the block of side 2^e around one of its pixels.
fn clipped(window: Window, e: u32, row: u16, col: u16) -> u32
    requires { (e ≤ 12) × Inside 12 window × In window (row, col) }
    ensures { result ≡ clipped window e (row, col) }
{
    let side = blocks::side(e);
    let rows = shared(window.r0, window.h, walk::floor(e, row), side);
    let cols = shared(window.c0, window.w, walk::floor(e, col), side);
    (rows as u32) * (cols as u32)
}

// Adds the pixels of several records, which fill the opened block, to the totals of their classes. The block is gone through as the check goes through a picture, and what a record
// has over the block's key is its key there. m and the window are there for the contract alone.
fn gather_run(
    m: u32,
    keys: &[u32],
    classes: &[u8],
    window: Window,
    opening: Opening,
    totals: &mut [u32; 256],
)
    requires { Fills m keys.now (length classes.now) window opening × Gathering m keys.now classes.now window opening.run.first opening.run.count totals.old }
    ensures { totals.new ≡ gathered m keys.now classes.now window (up_from opening.run.first opening.run.count) totals.old }
{
    let exponent = opening.block.exponent;
    let first = opening.run.first as usize;
    let mut spot = spots::first_spot(exponent);
    for n in first..first + opening.run.count as usize {
        let inner = keys[n] - opening.key;
        let e = spots::exponent_here(exponent, spot, inner);
        totals[classes[n] as usize] += blocks::pow4(e);
        spot = spots::advance(exponent, inner, e, spot.place);
    }
}

// Adds the parts of the records that an opening hands out to the totals of their classes. One that reaches beyond the block contains it and may stick out of the window, and
// otherwise they fill the block.
pub fn gather(
    m: u32,
    keys: &[u32],
    classes: &[u8],
    window: Window,
    opening: Opening,
    totals: &mut [u32; 256],
)
    requires { Hands m keys.now (length classes.now) window opening × Gathering m keys.now classes.now window opening.run.first opening.run.count totals.old }
    ensures { totals.new ≡ gathered m keys.now classes.now window (up_from opening.run.first opening.run.count) totals.old }
{
    let Opening { block, run, .. } = opening;
    if block.exponent < run.reach {
        let area = clipped(window, run.reach, block.row, block.col);
        totals[classes[run.first as usize] as usize] += area;
        return;
    }
    gather_run(m, keys, classes, window, opening, totals);
}
