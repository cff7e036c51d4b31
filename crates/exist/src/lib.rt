// Exist: whether some pixel of a window has a class, as far as it was seen.
#![tactic(auto)]

ghost use Rattle.std.specs.Prelude.{◌≡◌, ◌+◌, ◌≤◌, length};
ghost use Rattle.lists.specs.Lists.{up_from, any};
ghost use Rattle.answers.specs.After.{after};
ghost use Rattle.map.specs.Sound.{Follow};
ghost use Rattle.map.specs.Classes.{classed, not_seen};
ghost use Rattle.used.specs.Used.{Usable};
ghost use Rattle.exist.specs.Exist.{existing, exist_of};

use answers::Refused;
use map::Run;
use window::Window;

// What exist answers: whether some pixel has the class. It cannot tell where none has it and some were not seen.
#[derive(Clone, Copy, Debug, PartialEq, Eq)]
pub enum Existence {
    Yes,
    No,
    CannotTell,
}

// Some records, looked through: one has the class, one was not seen. Two flags and no enum: a loop that sets both takes many records at a time.
#[derive(Clone, Copy)]
struct Looked {
    has: bool,
    unseen: bool,
}

// Looks through the records of a run, to the last of them: a loop that may end before takes them one by one, this one many at a time.
fn look(classes: &[u8], class: u8, run: Run) -> Looked
    requires { (run.first + run.count ≤ length classes.now) × (length classes.now ≤ 65536) }
    ensures { (result.has ≡ any (classed classes.now class) (up_from run.first run.count)) × (result.unseen ≡ any (classed classes.now not_seen) (up_from run.first run.count)) }
{
    let first = run.first as usize;
    let mut has = false;
    let mut unseen = false;
    for here in &classes[first..first + run.count as usize] {
        has |= *here == class;
        unseen |= *here == map::NOT_SEEN;
    }
    Looked { has, unseen }
}

// Goes from opening to opening until a record has the class, and remembers whether one was not seen. In a whole map, the record of each pixel is handed out.
fn seek(
    m: u32,
    keys: &[u32],
    classes: &[u8],
    window: Window,
    class: u8,
    border: &mut [u16],
) -> Existence
    requires { Usable m m keys.now window (length border.old) × (length keys.now ≡ length classes.now) × Follow m 0 keys.now }
    ensures { after (Ok result) border.new ≡ existing m keys.now classes.now window class border.old }
{
    let w = window.w as usize;
    step::fill(border, 0, w, window.r0);
    let mut at = openings::start(window);
    let mut unseen = false;
    // A call and no iterator: it writes to the border, which is lent to it each time.
    while let Some(opening) = openings::next_opening(m, m, keys, window, &mut at, border) {
        let looked = look(classes, class, opening.run);
        if looked.has {
            step::fill(border, 0, w, window.r0 + window.h);
            return Existence::Yes;
        }
        unseen |= looked.unseen;
    }
    if unseen {
        Existence::CannotTell
    } else {
        Existence::No
    }
}

// Whether some pixel of the window has the class: yes, no, or it cannot tell.
pub fn exist(
    m: u32,
    keys: &[u32],
    classes: &[u8],
    window: Window,
    class: u8,
    border: &mut [u16],
) -> Result<Existence, Refused>
    ensures { after result border.new ≡ exist_of m keys.now classes.now window class border.old }
{
    used::usable(m, keys, classes, window, border.len(), true)?;
    Ok(seek(m, keys, classes, window, class, border))
}
