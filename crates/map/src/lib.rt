// Maps: what they are, and their laws. A map may have gaps, unless it is to be whole. Of keys it knows only the laws of the crate `key`.
#![tactic(auto)]

use key::Spot;

// The class of what was not seen.
pub const NOT_SEEN: u8 = 255;

// How far a walk along the records has come: where it stands, and the next record.
#[derive(Clone, Copy)]
pub struct Gone {
    pub spot: Spot,
    pub next: usize,
}

// So many records of a map, from the first on, which overlap a block; and the exponent of the larger of the block and the record of its first place.
#[derive(Clone, Copy)]
pub struct Run {
    pub first: u32,
    pub count: u32,
    pub reach: u32,
}
