// The active border: what stands in its cells, and the laws of openings. The step stands in the crate `step`, the way from opening to opening in `openings`.
#![tactic(auto)]

use map::Run;
use window::Block;

// What a step that opens a block tells: its key and the run of its records; and how many columns that closed.
#[derive(Clone, Copy)]
pub struct Opened {
    pub key: u32,
    pub run: Run,
    pub closed: u16,
}

// Where the walk stands: the row and the column from which it goes on, and in how many columns something is left to hand out.
#[derive(Clone, Copy)]
pub struct Walk {
    pub row: u16,
    pub col: u16,
    pub left: u16,
}

// What the walk comes to: an opening, of a block, with its key and the run of its records.
#[derive(Clone, Copy)]
pub struct Opening {
    pub block: Block,
    pub key: u32,
    pub run: Run,
}

// How many openings there are, and how many records they hand out.
#[derive(Clone, Copy)]
pub struct Totals {
    pub openings: u32,
    pub records: u32,
}
