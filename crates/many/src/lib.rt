// Many windows on one map, which is checked once.
#![tactic(auto)]

ghost use Rattle.std.specs.Prelude.{◌≡◌, [], ◌∷◌, ◌+◌, ◌*◌, ◌≤◌, length};
ghost use Rattle.std.proofs.lemmas.List.Edits.{sets};
ghost use Rattle.answers.specs.Refusals.{verdict};
ghost use Rattle.answers.specs.Cells.{overwrite};
ghost use Rattle.answers.specs.After.{after};
ghost use Rattle.window.specs.Window.{window_from};
ghost use Rattle.map.specs.Sound.{SoundMap};
ghost use Rattle.many.specs.Many.{windows_in, wrong_list, columns, line_of, line_cells, lines_of, left_by, widest, many_refusals, many_of};

use answers::{Cause, Refused};
use window::Window;

// What is said of a window: a refusal, or how many openings it has, records that they hand out, and pixels. Callers from C read these five numbers as cells, so the refusal is a number
// here, and 0 where there is none.
#[derive(Clone, Copy, Debug, PartialEq, Eq)]
pub struct Line {
    pub refusal: u32,
    pub place: u32,
    pub openings: u32,
    pub records: u32,
    pub pixels: u32,
}

// The window of four cells of the list.
fn window_of(cells: &[u16; 4]) -> Window
    ensures { result ≡ window_from cells.now 0 }
{
    let [r0, c0, h, w] = *cells;
    Window { r0, c0, h, w }
}

// How many border cells a window needs.
fn columns(m: u32, window: Window) -> u16
    requires { m ≤ 12 }
    ensures { result ≡ columns m window }
{
    if walk::outside(m, window) {
        0
    } else {
        window.w
    }
}

// How many border cells all windows of the list need.
fn widest(m: u32, windows: &[u16]) -> u16
    requires { m ≤ 12 }
    ensures { result ≡ widest m (windows_in windows.now) }
{
    let (fours, _) = windows.as_chunks::<4>();
    let mut widest: u16 = 0;
    for cells in fours {
        widest = widest.max(columns(m, window_of(cells)));
    }
    widest
}

// Refusal 25: so many numbers do not come in fours, or are too many.
fn wrong_list(n: usize) -> bool
    ensures { result ≡ wrong_list n }
{
    n % 4 != 0 || 4 * 256 < n
}

// All refusals, with so many cells of a border and of an answer slice.
fn askable(
    m: u32,
    keys: &[u32],
    classes: &[u8],
    windows: &[u16],
    cells: usize,
    room: usize,
) -> Result<(), Refused>
    ensures { result ≡ verdict (many_refusals m keys.now (length classes.now) windows.now cells room) }
{
    checks::sound(m, keys, classes, true)?;
    if wrong_list(windows.len()) {
        return Err(Cause::BadWindowList.at(0));
    }
    used::wide_enough(widest(m, windows), cells)?;
    let needed = 5 * (windows.len() / 4);
    if room < needed {
        return Err(Cause::ShortRoom.at(needed as u32));
    }
    Ok(())
}

// What is said of a window, by a pass over its border that writes no opening.
fn line_of(m: u32, keys: &[u32], window: Window, border: &mut [u16]) -> Line
    requires { SoundMap m keys.now (length keys.now) × (columns m window ≤ length border.old) }
    ensures { (result ≡ line_of m keys.now window) × (border.new ≡ left_by m (window ∷ []) border.old) }
{
    if walk::outside(m, window) {
        return Line {
            refusal: Cause::BadWindow.number(),
            place: 0,
            openings: 0,
            records: 0,
            pixels: 0,
        };
    }
    let totals = passes::pass(m, m, keys, window, border, &mut []);
    Line {
        refusal: 0,
        place: 0,
        openings: totals.openings,
        records: totals.records,
        pixels: (window.h as u32) * (window.w as u32),
    }
}

// Writes a line into its five cells.
fn put_line(out: &mut [u32], i: usize, line: Line)
    requires { 5 * i + 5 ≤ length out.old }
    ensures { out.new ≡ sets out.old (5 * i) (line_cells line) }
{
    let at = 5 * i;
    out[at..at + 5].copy_from_slice(&[
        line.refusal,
        line.place,
        line.openings,
        line.records,
        line.pixels,
    ]);
}

// The lines of all windows of the list, one after another, with one border.
fn put_lines(m: u32, keys: &[u32], windows: &[u16], border: &mut [u16], out: &mut [u32])
    requires { SoundMap m keys.now (length keys.now) × (widest m (windows_in windows.now) ≤ length border.old) × (5 * length (windows_in windows.now) ≤ length out.old) }
    ensures { (border.new ≡ left_by m (windows_in windows.now) border.old) × (out.new ≡ overwrite (lines_of m keys.now (windows_in windows.now)) out.old) }
{
    let (fours, _) = windows.as_chunks::<4>();
    for (i, cells) in fours.iter().enumerate() {
        let line = line_of(m, keys, window_of(cells), border);
        put_line(out, i, line);
    }
}

// The lines of many windows on one map: how many windows there are.
pub fn count(
    m: u32,
    keys: &[u32],
    classes: &[u8],
    windows: &[u16],
    border: &mut [u16],
    out: &mut [u32],
) -> Result<u32, Refused>
    ensures { after result (border.new, out.new) ≡ many_of m keys.now (length classes.now) windows.now border.old out.old }
{
    askable(m, keys, classes, windows, border.len(), out.len())?;
    put_lines(m, keys, windows, border, out);
    Ok((windows.len() / 4) as u32)
}
