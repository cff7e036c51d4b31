// Why a record, or a maximal block, is on the list of a window's openings, or is not.
#![tactic(auto)]

ghost use Rattle.std.specs.Prelude.{◌≡◌, ◌↔◌, true, ◌≤◌, ◌<◌, length};
ghost use mathlib.Core.List.{Memᴰ};
ghost use Rattle.answers.specs.After.{after};
ghost use Rattle.key.specs.Picture.{Pixel};
ghost use Rattle.key.specs.Blocks.{SquareOf};
ghost use Rattle.window.specs.Window.{In, Inside};
ghost use Rattle.window.specs.Keys.{keys_of};
ghost use Rattle.map.specs.Sound.{Follow, Spaced};
ghost use Rattle.map.specs.Records.{pixel_record};
ghost use Rattle.border.specs.Openings.{openings};
ghost use Rattle.used.specs.Used.{Usable, spent};
ghost use Rattle.why.specs.Why.{lies_of, pixels_of, why_record_of, why_block_of};
ghost use Rattle.why.specs.Parts.{square_lies, Brings};

use answers::{Cause, Refused};
use key::Square;
use window::Window;

// The sides of a window.
#[derive(Clone, Copy, Debug, PartialEq, Eq)]
pub enum Side {
    North,
    South,
    West,
    East,
}

// What is said of a record: an opening hands it out, by its number; or it lies on a side of the window. What is said of a maximal block: it is opened, as which number; or it is
// skipped for a record that an opening hands out.
#[derive(Clone, Copy, Debug, PartialEq, Eq)]
pub enum Why {
    Handed { index: u32, opening: u32 },
    Outside { index: u32, side: Side },
    Opened { opening: u32 },
    Skipped { index: u32, opening: u32 },
}

// The opening that hands out a record, by its number and its block's key. No `Option`: where none does, the number is that of all openings, as the contract says.
#[derive(Clone, Copy)]
struct Brought {
    opening: u32,
    key: u32,
}

// On which side of the window all of a square lies, the first that is true; or on none.
fn square_lies(window: Window, square: Square) -> Option<Side>
    requires { (square.exponent ≤ 12) × Inside 12 window × Pixel 12 square.row square.col }
    ensures { result ≡ square_lies window square.exponent (square.row, square.col) }
{
    let Square { exponent, row, col } = square;
    let side = blocks::side(exponent);
    if row + side <= window.r0 {
        return Some(Side::North);
    }
    if window.r0 + window.h <= row {
        return Some(Side::South);
    }
    if col + side <= window.c0 {
        return Some(Side::West);
    }
    if window.c0 + window.w <= col {
        return Some(Side::East);
    }
    None
}

// The same of a record: its key names a square.
fn record_lies(m: u32, keys: &[u32], window: Window, index: usize) -> Option<Side>
    requires { (m ≤ 12) × Spaced m 0 keys.now × Inside m window × (index < length keys.now) }
    ensures { result ≡ lies_of window (pixels_of m keys.now index) }
{
    square_lies(window, digits::square_of(m, keys[index]))
}

// Goes from opening to opening until one hands out the record, and counts those before it. Where none does, it counts all.
fn bring(m: u32, keys: &[u32], window: Window, index: u32, border: &mut [u16]) -> Brought
    requires { Usable m m keys.now window (length border.old) }
    ensures { Brings (openings m m keys.now window) index result × (border.new ≡ spent window border.old) }
{
    let w = window.w as usize;
    step::fill(border, 0, w, window.r0);
    let mut at = openings::start(window);
    let mut number: u32 = 0;
    // A call and no iterator: it writes to the border, which is lent to it each time.
    while let Some(opening) = openings::next_opening(m, m, keys, window, &mut at, border) {
        let run = opening.run;
        if run.first <= index && index < run.first + run.count {
            step::fill(border, 0, w, window.r0 + window.h);
            return Brought {
                opening: number,
                key: opening.key,
            };
        }
        number += 1;
    }
    Brought {
        opening: number,
        key: 0,
    }
}

// Whether a pixel is one of the window's.
fn has_pixel(window: Window, row: u16, col: u16) -> bool
    requires { Inside 12 window }
    ensures { (result ≡ true) ↔ In window (row, col) }
{
    (window.r0..window.r0 + window.h).contains(&row)
        && (window.c0..window.c0 + window.w).contains(&col)
}

// Whether a key is that of a maximal block of the window, by the square that it names: from its corner on, the walk then comes to that block first.
fn maximal(m: u32, window: Window, key: u32, square: Square) -> bool
    requires { (m ≤ 12) × Inside m window × SquareOf m key square }
    ensures { (result ≡ true) ↔ Memᴰ key (keys_of m m window) }
{
    if !has_pixel(window, square.row, square.col) {
        return false;
    }
    match walk::blocks_from(window, m, square.row, square.col).next() {
        Some(block) => blocks::block_key(m, block.exponent, block.row, block.col) == key,
        None => false,
    }
}

// The record of a pixel: the last one whose key is not over the pixel's.
fn record_at(m: u32, keys: &[u32], row: u16, col: u16) -> u32
    requires { (m ≤ 12) × (length keys.now ≤ 65536) × Follow m 0 keys.now × Pixel m row col }
    ensures { result ≡ pixel_record m keys.now row col }
{
    let behind = blocks::pixel_key(m, row, col) + 1;
    (runs::keys_below(keys, behind, 0) - 1) as u32
}

// Why a record of the map is on the list, or is not.
pub fn of_record(
    m: u32,
    keys: &[u32],
    classes: &[u8],
    window: Window,
    index: u32,
    border: &mut [u16],
) -> Result<Why, Refused>
    ensures { after result border.new ≡ why_record_of m keys.now (length classes.now) window index border.old }
{
    used::usable(m, keys, classes, window, border.len(), true)?;
    if keys.len() <= index as usize {
        return Err(Cause::NoRecord.at(0));
    }
    if let Some(side) = record_lies(m, keys, window, index as usize) {
        step::fill(border, 0, window.w as usize, window.r0 + window.h);
        return Ok(Why::Outside { index, side });
    }
    let brought = bring(m, keys, window, index, border);
    Ok(Why::Handed {
        index,
        opening: brought.opening,
    })
}

// Why a maximal block, by its key, is on the list or is not. The record of its corner is handed out there or, where the block lies in it, at an earlier one.
pub fn of_block(
    m: u32,
    keys: &[u32],
    classes: &[u8],
    window: Window,
    key: u32,
    border: &mut [u16],
) -> Result<Why, Refused>
    ensures { after result border.new ≡ why_block_of m keys.now (length classes.now) window key border.old }
{
    used::usable(m, keys, classes, window, border.len(), true)?;
    let square = digits::square_of(m, key);
    if !maximal(m, window, key, square) {
        return Err(Cause::NotMaximal.at(0));
    }
    let index = record_at(m, keys, square.row, square.col);
    let brought = bring(m, keys, window, index, border);
    let opening = brought.opening;
    if brought.key == key {
        return Ok(Why::Opened { opening });
    }
    Ok(Why::Skipped { index, opening })
}
