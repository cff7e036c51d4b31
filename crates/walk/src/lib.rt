// The walk over the maximal blocks of a window, how many there can be, and whether a window lies in the picture.
#![tactic(auto)]

ghost use Rattle.std.specs.Prelude.{◌≡◌, MatchOption, [], min, ◌+◌, ◌^◌, ◌≤◌, length};
ghost use Rattle.std.specs.Iterator.{at_most};
ghost use Rattle.window.specs.Window.{Inside, In, beyond, outside};
ghost use Rattle.window.specs.Blocks.{floor, exponent};
ghost use Rattle.window.specs.Walk.{most_blocks, Between, Reach, Cursor, blocks_from, GoesOn};

use window::{Block, Window};

// Of `count` numbers from `start` on: there is none, or one of them is not below 2^m.
fn beyond(m: u32, start: u16, count: u16) -> bool
    requires { m ≤ 12 }
    ensures { result ≡ beyond m start count }
{
    count == 0 || (blocks::side(m) as u32) < (start as u32) + (count as u32)
}

// Refusal 6: the window is empty or not inside the picture.
pub fn outside(m: u32, window: Window) -> bool
    requires { m ≤ 12 }
    ensures { result ≡ outside m window }
{
    beyond(m, window.r0, window.h) || beyond(m, window.c0, window.w)
}

// As many maximal blocks of exponent up to `top` as a window of its size can have: whoever has room for them need not count them first.
pub fn most_blocks(window: Window, top: u32) -> usize
    requires { (top ≤ 12) × Inside 12 window }
    ensures { result ≡ most_blocks window top }
{
    let w = window.w as u32;
    let h = window.h as u32;
    let tiles = w * h / blocks::pow4(top);
    (4 * (w + h) + tiles - 2) as usize
}

// A number, down to a multiple of 2^i: where its block of that side begins.
pub fn floor(i: u32, x: u16) -> u16
    requires { i ≤ 12 }
    ensures { result ≡ floor i x }
{
    (x >> i) << i
}

// Of the rows or the columns of a window, and one of them, x: a number that is 2^i or more exactly when x's block of side 2^i lies in the `count` from `start` on.
// A block of x lies behind the number before the first exactly when the two differ at its exponent's bit or a higher one; and before the number behind the last likewise.
// 4096 is added so that there is a number before 0.
fn reach(start: u16, count: u16, x: u16) -> u16
    requires { Between start count x }
    ensures { Reach start count x result }
{
    let at = x + 4096;
    let before = start + 4095 ^ at;
    let behind = start + count + 4096 ^ at;
    before.min(behind)
}

// The exponent of the maximal block that holds a pixel: the largest that fits by rows, by columns and by `top`.
// Zeros are counted of twice the least reach and 1 more, which is never 0: a processor that has no count for 0 then needs no test.
fn exponent(window: Window, top: u32, row: u16, col: u16) -> u32
    requires { (top ≤ 12) × Inside 12 window × In window (row, col) }
    ensures { result ≡ exponent window top (row, col) }
{
    let rows = reach(window.r0, window.h, row);
    let cols = reach(window.c0, window.w, col);
    let both = rows.min(cols) as u32;
    let i = 30 - (2 * both + 1).leading_zeros();
    i.min(top)
}

// The first maximal block from a row and a column on. A pixel is the corner of one exactly when the exponent of the block that holds it is at most the trailing zeros of its row and
// of its column. Where it is over the row's, no pixel is a corner up to the last multiple of twice the row's alignment in the window; elsewhere the walk goes on behind the block.
pub fn next_block(window: Window, top: u32, mut row: u16, mut col: u16) -> Option<Block>
    requires { (top ≤ 12) × Inside 12 window × Cursor window (row, col) }
    ensures { MatchOption result (blocks_from window top (row, col) ≡ []) (λ b. GoesOn window top (row, col) b (b.row, b.col + 2 ^ b.exponent)) }
{
    let south = window.r0 + window.h;
    let east = window.c0 + window.w;
    // Two walks in one, along the rows and down them, with four ways on: no `for` says that.
    loop {
        if col < east {
            let exponent = exponent(window, top, row, col);
            let by_row = blocks::alignment(top, row);
            if by_row < exponent {
                col = floor(by_row + 1, east);
            } else {
                let by_col = blocks::alignment(top, col);
                if exponent <= by_col {
                    return Some(Block { row, col, exponent });
                }
                col = floor(exponent, col) + blocks::side(exponent);
            }
        } else {
            row += 1;
            if row == south {
                return None;
            }
            col = window.c0;
        }
    }
}

// The maximal blocks of a window, of exponent up to `top`, from a row and a column on. The column may be the one behind a row's last.
#[derive(Drop)]
pub struct MaximalBlocks {
    pub window: Window,
    pub top: u32,
    pub row: u16,
    pub col: u16,
    pub ghost ready: { (top ≤ 12) × Inside 12 window × Cursor window (row, col) },
}

// All maximal blocks of a window.
pub fn blocks(window: Window, top: u32) -> MaximalBlocks
    requires { (top ≤ 12) × Inside 12 window }
    ensures { (result.window ≡ window) × (result.top ≡ top) × (result.row ≡ window.r0) × (result.col ≡ window.c0) }
{
    blocks_from(window, top, window.r0, window.c0)
}

pub fn blocks_from(window: Window, top: u32, row: u16, col: u16) -> MaximalBlocks
    requires { (top ≤ 12) × Inside 12 window × Cursor window (row, col) }
    ensures { (result.window ≡ window) × (result.top ≡ top) × (result.row ≡ row) × (result.col ≡ col) }
{
    MaximalBlocks {
        window,
        top,
        row,
        col,
    }
}

impl Iterator for MaximalBlocks {
    ghost use Rattle.walk.specs.Steps.{Steps};

    type Item = Block;

    ghost next_gives = { Steps };

    ghost remaining = { λ s. at_most (length (blocks_from s.window s.top (s.row, s.col))) };

    fn next(&mut self) -> Option<Block> {
        let block = next_block(self.window, self.top, self.row, self.col)?;
        self.row = block.row;
        self.col = block.col + blocks::side(block.exponent);
        Some(block)
    }
}
