// Report: how many pixels of a window each class has.
#![tactic(auto)]

ghost use Rattle.std.specs.Prelude.{◌≡◌, ◌≤◌, length};
ghost use Rattle.answers.specs.Cells.{overwrite};
ghost use Rattle.answers.specs.After.{after};
ghost use Rattle.report.specs.Report.{report_of};

use answers::{Cause, Refused};
use window::Window;

// Writes the totals into the lent slice.
pub fn put_totals(totals: &[u32; 256], out: &mut [u32])
    requires { (length totals.now ≡ 256) × (256 ≤ length out.old) }
    ensures { out.new ≡ overwrite totals.now out.old }
{
    out[..256].copy_from_slice(totals);
}

// How many pixels of the window each class has; and how many it has in all.
pub fn report(
    m: u32,
    keys: &[u32],
    classes: &[u8],
    window: Window,
    border: &mut [u16],
    out: &mut [u32],
) -> Result<u32, Refused>
    ensures { after result (border.new, out.new) ≡ report_of m keys.now classes.now window border.old out.old }
{
    used::usable(m, keys, classes, window, border.len(), true)?;
    if out.len() < 256 {
        step::fill(border, 0, window.w as usize, window.r0 + window.h);
        return Err(Cause::ShortRoom.at(256));
    }
    let mut totals = [0; 256];
    sums::count(m, keys, classes, window, border, &mut totals);
    put_totals(&totals, out);
    Ok((window.h as u32) * (window.w as u32))
}
