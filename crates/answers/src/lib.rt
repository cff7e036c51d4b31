// How operations answer: refusals in a stated order, and cells of a lent slice beyond an answer that keep their content.
// Stands below keys, maps and files, which share the refusals 1, 2 and 17.
#![tactic(auto)]

ghost use Rattle.std.specs.Prelude.{◌≡◌};
ghost use Rattle.answers.specs.Refusals.{number, refused, verdict};
ghost use Rattle.answers.specs.Sizes.{size_refusals_in, tile_refusals};
ghost use Rattle.answers.specs.Cells.{put};

// Why an operation refuses. Each cause has a number, by which callers from C know it.
#[derive(Clone, Copy, Debug, PartialEq, Eq)]
pub enum Cause {
    BadM = 1,
    BadCount = 2,
    BadKey = 3,
    Overlap = 4,
    Gap = 5,
    BadWindow = 6,
    ShortBorder = 7,
    ShortRoom = 8,
    BadLayout = 9,
    LeftOver = 10,
    OtherM = 15,
    MonthFull = 16,
    BadTile = 17,
    NoRecord = 19,
    NotMaximal = 22,
    BadWindowList = 25,
    BadTable = 26,
    NoBlock = 27,
}

// A refusal that is given: its cause, and the place or the number that belongs to it, or else 0.
#[derive(Clone, Copy, Debug, PartialEq, Eq)]
pub struct Refused {
    pub cause: Cause,
    pub place: u32,
}

impl Cause {
    // The refusal for this cause.
    #[cold]
    #[inline(never)] // so that no loop that may refuse carries the refusal along
    pub fn at(self, place: u32) -> Refused
        ensures { result ≡ refused self place }
    {
        Refused { cause: self, place }
    }

    pub fn number(self) -> u32
        ensures { result ≡ number self }
    {
        self as u32
    }
}

// Refusals 1 and 2 of a picture of 2^m by 2^m pixels whose map has so many keys and classes. Only a map that is to be whole must have a record.
pub fn sizes(m: u32, keys: usize, classes: usize, whole: bool) -> Result<(), Refused>
    ensures { result ≡ verdict (size_refusals_in whole m keys classes) }
{
    if m > 12 {
        return Err(Cause::BadM.at(0));
    }
    if keys != classes || keys > 65536 || (whole && keys == 0) {
        return Err(Cause::BadCount.at(0));
    }
    Ok(())
}

// Refusals 1 and 17 of a picture of 2^m by 2^m pixels in which blocks of exponent up to `top` may be used.
pub fn tile(m: u32, top: u32) -> Result<(), Refused>
    ensures { result ≡ verdict (tile_refusals m top) }
{
    if 12 < m {
        return Err(Cause::BadM.at(0));
    }
    if m < top {
        return Err(Cause::BadTile.at(0));
    }
    Ok(())
}

// Writes an element behind n others, where there is room for it.
pub fn put<T: Copy>(out: &mut [T], n: u32, x: T)
    ensures { out.new ≡ put n x out.old }
{
    let at = n as usize;
    if at < out.len() {
        out[at] = x;
    }
}
