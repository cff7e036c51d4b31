// A month: a running table of what maps have in one window.
#![tactic(auto)]

ghost use Rattle.std.specs.Prelude.{◌≡◌, min, ◌≤◌, length};
ghost use Rattle.answers.specs.Refusals.{verdict};
ghost use Rattle.answers.specs.After.{after};
ghost use Rattle.month.specs.Month.{clear_of, window_in, spoiled, table_refusals, add_refusals, add_of};
ghost use Rattle.month.specs.Narrow.{narrowed};

use answers::{Cause, Refused};
use window::Window;

// Makes the table of a window with no map.
pub fn clear(m: u32, window: Window, table: &mut [u64]) -> Result<(), Refused>
    ensures { after result table.new ≡ clear_of m window table.old }
{
    if 12 < m {
        return Err(Cause::BadM.at(0));
    }
    if walk::outside(m, window) {
        return Err(Cause::BadWindow.at(0));
    }
    if table.len() < 1030 {
        return Err(Cause::ShortRoom.at(1030));
    }
    // Cell by cell: copied from an array, they would be written twice.
    table[0] = m as u64;
    table[1] = window.r0 as u64;
    table[2] = window.c0 as u64;
    table[3] = window.h as u64;
    table[4] = window.w as u64;
    table[5..1030].fill(0);
    Ok(())
}

// A number in 16 bits; one that is too great becomes their greatest, which lies outside every picture too.
fn narrow(x: u64) -> u16
    ensures { result ≡ min x 65535 }
{
    x.min(65535) as u16
}

// The table's window, exact where it lies inside a picture.
fn window_in(table: &[u64]) -> Window
    requires { 1030 ≤ length table.now }
    ensures { result ≡ narrowed (window_in table.now) }
{
    Window {
        r0: narrow(table[1]),
        c0: narrow(table[2]),
        h: narrow(table[3]),
        w: narrow(table[4]),
    }
}

// Refusal 26.
fn spoiled(m: u32, table: &[u64]) -> bool
    requires { (m ≤ 12) × (1030 ≤ length table.now) }
    ensures { result ≡ spoiled m table.now }
{
    let window = window_in(table);
    if walk::outside(m, window) {
        return true;
    }
    let maps = table[5];
    if 1000 < maps {
        return true;
    }
    let pixels = (window.h as u64) * (window.w as u64);
    rows::any_over(maps * pixels, maps, table)
}

// Refusals 8, 15, 26 and 16.
fn ongoing(m: u32, table: &[u64]) -> Result<(), Refused>
    requires { m ≤ 12 }
    ensures { result ≡ verdict (table_refusals m table.now) }
{
    if table.len() < 1030 {
        return Err(Cause::ShortRoom.at(1030));
    }
    if table[0] != (m as u64) {
        return Err(Cause::OtherM.at(0));
    }
    if spoiled(m, table) {
        return Err(Cause::BadTable.at(0));
    }
    if table[5] == 1000 {
        return Err(Cause::MonthFull.at(0));
    }
    Ok(())
}

// All refusals of adding, with a border of so many cells.
fn addable(m: u32, keys: &[u32], classes: &[u8], cells: usize, table: &[u64]) -> Result<(), Refused>
    ensures { result ≡ verdict (add_refusals m keys.now (length classes.now) cells table.now) }
{
    checks::sound(m, keys, classes, true)?;
    ongoing(m, table)?;
    used::wide_enough(window_in(table).w, cells)
}

// Adds a map to the table. How many it has now.
pub fn add(
    m: u32,
    keys: &[u32],
    classes: &[u8],
    border: &mut [u16],
    table: &mut [u64],
) -> Result<u32, Refused>
    ensures { after result (border.new, table.new) ≡ add_of m keys.now classes.now border.old table.old }
{
    addable(m, keys, classes, border.len(), table)?;
    let mut counts = [0; 256];
    sums::count(m, keys, classes, window_in(table), border, &mut counts);
    let maps = table[5];
    table[5] = maps + 1;
    rows::add_rows(table, &counts, maps == 0);
    Ok((maps + 1) as u32)
}
