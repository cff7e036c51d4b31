// Locational keys, apart from maps: what they are, and their laws. The functions stand in the crates `blocks`, `digits` and `spots`.
#![tactic(auto)]

// A block, by its exponent and the place at which its span starts. As a key a number is one, or malformed.
#[derive(Clone, Copy)]
pub struct Span {
    pub exponent: u32,
    pub start: u32,
}

// A square block, by its exponent and its corner's row and column.
#[derive(Clone, Copy)]
pub struct Square {
    pub exponent: u32,
    pub row: u16,
    pub col: u16,
}

// A number without zeros that it ends in, and how many were taken off.
#[derive(Clone, Copy)]
pub struct Stripped {
    pub rest: u32,
    pub zeros: u32,
}

// Where a walk along the keys stands: a place, and the largest block that starts there, by its key and its exponent. Behind the last place only the place counts.
#[derive(Clone, Copy)]
pub struct Spot {
    pub place: u32,
    pub key: u32,
    pub top: u32,
}
