// The lines that the window program prints, put into bytes that the caller lends.
#![tactic(auto)]

ghost use Rattle.std.specs.Prelude.{◌≡◌, ◌≤◌, length};
ghost use Rattle.answers.specs.After.{after};
ghost use Rattle.text.specs.Text.{put_of};
ghost use Rattle.lines.specs.Lines.{window_line, refusal_line, opening_lines, class_line, class_lines, found_lines};

use window::Window;

pub fn put_refusal(number: u32, place: u32, out: &mut [u8]) -> usize
    ensures { after result out.new ≡ put_of (refusal_line number place) out.old }
{
    text::put_line(b'R', &[number, place], out)
}

pub fn put_window(window: Window, out: &mut [u8]) -> usize
    ensures { after result out.new ≡ put_of (window_line window) out.old }
{
    let numbers = [
        u32::from(window.r0),
        u32::from(window.c0),
        u32::from(window.h),
        u32::from(window.w),
    ];
    text::put_line(b'W', &numbers, out)
}

// Of each opening three cells.
fn put_openings(cells: &[u32], out: &mut [u8]) -> usize
    requires { length (opening_lines cells.now) ≤ length out.old }
    ensures { after result out.new ≡ put_of (opening_lines cells.now) out.old }
{
    let mut at: usize = 0;
    for opening in cells.chunks_exact(3) {
        at += text::put_line(b'O', opening, &mut out[at..]);
    }
    at
}

fn put_class(class: u32, pixels: u32, out: &mut [u8]) -> usize
    ensures { after result out.new ≡ put_of (class_line class pixels) out.old }
{
    if pixels == 0 {
        return 0;
    }
    text::put_line(b'A', &[class, pixels], out)
}

// Of each class from 0 on, the pixels that have it.
fn put_classes(totals: &[u32], out: &mut [u8]) -> usize
    requires { (length totals.now ≤ 256) × (length (class_lines 0 totals.now) ≤ length out.old) }
    ensures { after result out.new ≡ put_of (class_lines 0 totals.now) out.old }
{
    let mut at: usize = 0;
    for (class, pixels) in totals.iter().enumerate() {
        at += put_class(class as u32, *pixels, &mut out[at..]);
    }
    at
}

// What was found in a window: its openings, the classes present, and the sums.
pub fn put_found(
    cells: &[u32],
    totals: &[u32],
    openings: u32,
    records: u32,
    pixels: u32,
    out: &mut [u8],
) -> usize
    requires { (length totals.now ≤ 256) × (length (found_lines cells.now totals.now openings records pixels) ≤ length out.old) }
    ensures { after result out.new ≡ put_of (found_lines cells.now totals.now openings records pixels) out.old }
{
    let mut at = put_openings(cells, out);
    at += put_classes(totals, &mut out[at..]);
    at += text::put_line(b'T', &[openings, records, pixels], &mut out[at..]);
    at
}
