// Keys and sizes of blocks: E by a table, a pixel's key and its place, a block's key, powers, and the alignment of a number.
// The crates above refuse m over 12 before they call, so functions here ask m ≤ 12, and all keys fit u32.
#![tactic(auto)]

ghost use Rattle.std.specs.Prelude.{◌≡◌, ◌^◌, ◌<◌, ◌≤◌, get_or, map};
ghost use Rattle.lists.specs.Lists.{up_from};
ghost use Rattle.key.specs.Spread.{E, spread, spreads, fours};
ghost use Rattle.key.specs.Picture.{Pixel, place};
ghost use Rattle.key.specs.Key.{pixel_key, block_key, ones};
ghost use Rattle.key.specs.Alignment.{alignment};
ghost use Rattle.key.specs.Power.{Power};

mod tables;

use tables::{FIVES, FOURS, SPREAD};

// The table of E.
pub fn spread_table() -> &'static [u32; 256]
    ensures { result.now ≡ spreads }
{
    &SPREAD
}

// E of eight bits, as the table has it.
fn entry(x: u16) -> u32
    requires { x < 256 }
    ensures { result ≡ get_or spreads x 0 }
{
    spread_table()[x as usize]
}

// E of a row, of a column, and of a power of two up to 2^12: read for the low eight bits, and again, times 5^8, for the rest.
fn spread(x: u16) -> u32
    requires { x < 2 ^ 13 }
    ensures { result ≡ E x }
{
    entry(x % 256) + 390625 * entry(x / 256)
}

fn fives_table() -> &'static [u32; 13]
    ensures { result.now ≡ map (λ k. 5 ^ k) (up_from 0 13) }
{
    &FIVES
}

// How many keys a block of exponent k has.
pub fn pow5(k: u32) -> u32
    requires { k ≤ 12 }
    ensures { Power 5 k result }
{
    fives_table()[k as usize]
}

// k digits 1: E of as many bits.
fn ones(k: u32) -> u32
    requires { k ≤ 12 }
    ensures { result ≡ ones k }
{
    spread((1 << k) - 1)
}

// How many rows a block of exponent i has, and how many columns.
pub fn side(i: u32) -> u16
    requires { i ≤ 12 }
    ensures { Power 2 i result }
{
    1 << i
}

// How many pixels a block of exponent k has.
pub fn pow4(k: u32) -> u32
    requires { k ≤ 12 }
    ensures { Power 4 k result }
{
    1 << (2 * k)
}

pub fn pixel_key(m: u32, row: u16, col: u16) -> u32
    requires { (m ≤ 12) × Pixel m row col }
    ensures { result ≡ pixel_key m row col }
{
    ones(m) + 2 * spread(row) + spread(col)
}

// The key of the block of exponent i that holds the pixel: i digits 1 below that of the block's first pixel.
pub fn block_key(m: u32, i: u32, row: u16, col: u16) -> u32
    requires { (m ≤ 12) × (i ≤ m) × Pixel m row col }
    ensures { result ≡ block_key m i row col }
{
    pixel_key(m, (row >> i) << i, (col >> i) << i) - ones(i)
}

fn fours_table() -> &'static [u8; 16]
    ensures { result.now ≡ fours }
{
    &FOURS
}

// Four bits, spread over the powers of 4.
fn four_bits(x: u16) -> u32
    requires { x < 16 }
    ensures { result ≡ spread 4 x }
{
    fours_table()[x as usize] as u32
}

// So those of a row or a column, four at a time.
fn bits_apart(x: u16) -> u32
    requires { x < 2 ^ 12 }
    ensures { result ≡ spread 4 x }
{
    four_bits(x % 16) + 256 * four_bits(x / 16 % 16) + 65536 * four_bits(x / 256)
}

// The place of a pixel in key order.
pub fn place(row: u16, col: u16) -> u32
    requires { Pixel 12 row col }
    ensures { result ≡ place row col }
{
    2 * bits_apart(row) + bits_apart(col)
}

pub fn alignment(m: u32, x: u16) -> u32
    requires { m ≤ 12 }
    ensures { result ≡ alignment m x }
{
    x.trailing_zeros().min(m)
}
