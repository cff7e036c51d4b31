// One maximal block, one step: what it does to the active border.
#![tactic(auto)]

ghost use Rattle.std.specs.Prelude.{◌≡◌, ◌≤◌, length};
ghost use Rattle.window.specs.Window.{In, Inside};
ghost use Rattle.window.specs.Walk.{corner_of};
ghost use Rattle.border.specs.Cells.{filled, pushed, closed};
ghost use Rattle.border.specs.Step.{Ready, Step};

use border::Opened;
use window::{Block, Window};

// Fills the cells from one place up to another.
pub fn fill(cells: &mut [u16], from: usize, to: usize, value: u16)
    requires { (from ≤ to) × (to ≤ length cells.old) }
    ensures { cells.new ≡ filled from to value cells.old }
{
    cells[from..to].fill(value);
}

// What an opened block does to the border: around it stands the block of side 2^n. How many columns come to the row below the window by it.
fn push(window: Window, n: u32, row: u16, col: u16, border: &mut [u16]) -> u16
    requires { (n ≤ 12) × Inside 12 window × In window (row, col) × (window.w ≤ length border.old) }
    ensures { (result ≡ closed window n (row, col)) × (border.new ≡ pushed window n (row, col) border.old) }
{
    let side = blocks::side(n);
    let west = walk::floor(n, col);
    let east = (west + side).min(window.c0 + window.w);
    let south = (walk::floor(n, row) + side).min(window.r0 + window.h);
    let from = west.saturating_sub(window.c0);
    let to = east.saturating_sub(window.c0);
    fill(border, from as usize, to as usize, south);
    if south < window.r0 + window.h {
        return 0;
    }
    to - from
}

// One maximal block. What was handed out before is known by the border alone: the block is skipped when the cell of its corner's column is over its corner's row. Only a block that
// is opened needs its key.
pub fn step(
    m: u32,
    top: u32,
    keys: &[u32],
    window: Window,
    block: Block,
    border: &mut [u16],
) -> Option<Opened>
    requires { Ready m top keys.now window (corner_of block) block.exponent (length border.old) }
    ensures { Step m top keys.now window (corner_of block) border.old result border.new }
{
    let at = (block.col - window.c0) as usize;
    if block.row < border[at] {
        return None;
    }
    let key = blocks::block_key(m, block.exponent, block.row, block.col);
    let run = runs::records_of(m, keys, key, block.exponent);
    let closed = push(window, run.reach, block.row, block.col, border);
    Some(Opened { key, run, closed })
}
