// Exist, report and select on maps that may have gaps: a pixel in no record has the class of the background. And exist and report of such a map over a baseline.
#![tactic(auto)]

ghost use Rattle.std.specs.Prelude.{◌≡◌, false, cond, ◌≤◌, length};
ghost use Rattle.answers.specs.After.{after};
ghost use Rattle.window.specs.Window.{Inside};
ghost use Rattle.map.specs.Classes.{class_over};
ghost use Rattle.used.specs.Used.{spent};
ghost use Rattle.exist.specs.declared.Existence.TheVariants.{Yes, No, CannotTell};
ghost use Rattle.exist.specs.Exist.{exist_in};
ghost use Rattle.pieces.specs.Pair.{Pair, class_over_map};
ghost use Rattle.report.specs.Report.{report_in};
ghost use Rattle.select.specs.Select.{select_keys};
ghost use Rattle.sparse_select.specs.Select.{sparse_selection};

use answers::{Cause, Refused};
use exist::Existence;
use pieces::Looked;
use window::Window;

// Nothing here needs the border: it is spent at once.
pub fn spend(window: Window, border: &mut [u16])
    requires { Inside 12 window × (window.w ≤ length border.old) }
    ensures { border.new ≡ spent window border.old }
{
    border[..window.w as usize].fill(window.r0 + window.h);
}

// Yes, no, or it cannot tell.
fn say(looked: Looked) -> Existence
    ensures { result ≡ cond looked.has Yes (cond looked.unseen CannotTell No) }
{
    if looked.has {
        return Existence::Yes;
    }
    if looked.unseen {
        return Existence::CannotTell;
    }
    Existence::No
}

// Whether some pixel of the window has the class, by the classes of a map over a baseline: yes, no, or it cannot tell. Refusals 6 and 7.
pub fn exist_over(
    m: u32,
    keys: &[u32],
    classes: &[u8],
    base: &[u32],
    beneath: &[u8],
    window: Window,
    class: u8,
    border: &mut [u16],
) -> Result<Existence, Refused>
    requires { Pair m keys.now (length classes.now) base.now (length beneath.now) }
    ensures { after result border.new ≡ exist_in false (class_over_map m keys.now classes.now base.now beneath.now) m keys.now (length classes.now) window class border.old }
{
    used::in_view(m, window, border.len())?;
    spend(window, border);
    let looked = pieces::find(m, keys, classes, base, beneath, window, class);
    Ok(say(looked))
}

// The same of a map by itself: it is over a baseline of one record, the whole picture in the background's class.
pub fn exist(
    m: u32,
    background: u8,
    keys: &[u32],
    classes: &[u8],
    window: Window,
    class: u8,
    border: &mut [u16],
) -> Result<Existence, Refused>
    ensures { after result border.new ≡ exist_in false (class_over background m keys.now classes.now) m keys.now (length classes.now) window class border.old }
{
    checks::sound(m, keys, classes, false)?;
    let base: [u32; 1] = [0];
    let under: [u8; 1] = [background];
    exist_over(m, keys, classes, &base, &under, window, class, border)
}

// How many pixels of the window each class has, by the classes of a map over a baseline. Refusals 6 to 8.
pub fn report_over(
    m: u32,
    keys: &[u32],
    classes: &[u8],
    base: &[u32],
    beneath: &[u8],
    window: Window,
    border: &mut [u16],
    out: &mut [u32],
) -> Result<u32, Refused>
    requires { Pair m keys.now (length classes.now) base.now (length beneath.now) }
    ensures { after result (border.new, out.new) ≡ report_in false (class_over_map m keys.now classes.now base.now beneath.now) m keys.now (length classes.now) window border.old out.old }
{
    used::in_view(m, window, border.len())?;
    spend(window, border);
    if out.len() < 256 {
        return Err(Cause::ShortRoom.at(256));
    }
    let mut totals: [u32; 256] = [0; 256];
    pieces::add_up(m, keys, classes, base, beneath, window, &mut totals);
    report::put_totals(&totals, out);
    Ok((window.h as u32) * (window.w as u32))
}

// The same of a map by itself.
pub fn report(
    m: u32,
    background: u8,
    keys: &[u32],
    classes: &[u8],
    window: Window,
    border: &mut [u16],
    out: &mut [u32],
) -> Result<u32, Refused>
    ensures { after result (border.new, out.new) ≡ report_in false (class_over background m keys.now classes.now) m keys.now (length classes.now) window border.old out.old }
{
    checks::sound(m, keys, classes, false)?;
    let base: [u32; 1] = [0];
    let under: [u8; 1] = [background];
    report_over(m, keys, classes, &base, &under, window, border, out)
}

// The keys of a class in the window, with blocks of exponent up to `top`.
pub fn select(
    m: u32,
    top: u32,
    background: u8,
    keys: &[u32],
    classes: &[u8],
    window: Window,
    class: u8,
    border: &mut [u16],
    out: &mut [u32],
) -> Result<u32, Refused>
    ensures { after result (border.new, out.new) ≡ select_keys false (sparse_selection m top background keys.now classes.now window class) m top keys.now (length classes.now) window border.old out.old }
{
    used::usable_tiled(m, top, keys, classes, window, border.len(), false)?;
    spend(window, border);
    sparse_select::list_sparse(m, background, keys, classes, window, top, class, out)
}
