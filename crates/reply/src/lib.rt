// The reply where a window should begin, put into bytes that the caller lends: the text for the window, or that for bytes left over.
#![tactic(auto)]

ghost use Rattle.std.specs.Prelude.{◌≡◌, ◌≤◌, length};
ghost use Rattle.answers.specs.After.{after};
ghost use Rattle.text.specs.Text.{put_of};
ghost use Rattle.reply.specs.Reply.{result_of, answer_of, Found, next_text};

use answers::Refused;
use window::Window;

// Puts what is found in a window, where it is not refused: its openings, and its pixels by class. Three cells for each of 1,000 records are room for all openings.
fn put_found(
    m: u32,
    keys: &[u32],
    classes: &[u8],
    window: Window,
    out: &mut [u8],
) -> Result<usize, Refused>
    requires { (length keys.now ≤ 1000) × (42179 ≤ length out.old) }
    ensures { Found (result_of m keys.now classes.now window) result out.old out.new }
{
    let mut border = [0u16; 4096];
    let mut totals = [0u32; 256];
    let mut cells = [0u32; 3000];
    let pixels = report::report(m, keys, classes, window, &mut border, &mut totals)?;
    let opened = open::open(m, m, keys, classes, window, &mut border, &mut cells, true)?;
    let n = 3 * opened.openings as usize;
    Ok(lines::put_found(
        &cells[..n],
        &totals,
        opened.openings,
        opened.records,
        pixels,
        out,
    ))
}

// What is said of a window behind its first line.
fn put_result(m: u32, keys: &[u32], classes: &[u8], window: Window, out: &mut [u8]) -> usize
    requires { (length keys.now ≤ 1000) × (42179 ≤ length out.old) }
    ensures { after result out.new ≡ put_of (result_of m keys.now classes.now window) out.old }
{
    match put_found(m, keys, classes, window, out) {
        Ok(put) => put,
        Err(refused) => lines::put_refusal(refused.cause.number(), refused.place, out),
    }
}

// The text for a window: at most 46 bytes for its first line, 12 for each cell of an opening, 24 for each class and 35 for the sums.
fn put_answer(m: u32, keys: &[u32], classes: &[u8], window: Window, out: &mut [u8]) -> usize
    requires { (length keys.now ≤ 1000) × (42225 ≤ length out.old) }
    ensures { after result out.new ≡ put_of (answer_of m keys.now classes.now window) out.old }
{
    let at = lines::put_window(window, out);
    at + put_result(m, keys, classes, window, &mut out[at..])
}

// What is printed where a window should begin, and so many bytes of one were read.
pub fn put_next(
    m: u32,
    keys: &[u32],
    classes: &[u8],
    bytes: &[u8; 8],
    got: usize,
    out: &mut [u8],
) -> usize
    requires { (length keys.now ≤ 1000) × (42225 ≤ length out.old) }
    ensures { after result out.new ≡ put_of (next_text m keys.now classes.now got bytes.now) out.old }
{
    if got < 8 {
        return input::put_left(got as u32, out);
    }
    put_answer(m, keys, classes, input::window_of(bytes), out)
}
