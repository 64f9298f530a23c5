// Document 01, "Parameters of a blind": a set of parameters, and the numbers that a caller asks for. What the set
// holds, in which order its numbers stand and in which ranges they lie is said in this crate alone.
#![tactic(auto)]

mod numbers;
mod parameters;

#[derive(Clone, Copy, PartialEq, Eq)]
pub enum Reaction {
    Ignore,
    Up,
    Down,
    Stop,
}

// A number that is no reaction's.
#[derive(Clone, Copy)]
pub struct NoReaction(pub u64);

// Times in milliseconds; the reactions are those to wind, rain and frost.
#[derive(Clone, Copy)]
pub struct Params {
    pub mudt: u32,
    pub sst: u32,
    pub rpt: u32,
    pub rwa: Reaction,
    pub rra: Reaction,
    pub rfa: Reaction,
}

// How many numbers a set has.
pub const SET: usize = 6;

// The numbers that a caller asks for, of any size, so that each of them can be outside its range.
// Reactions as numbers: 0 ignore, 1 up, 2 down, 3 stop.
#[derive(Clone, Copy)]
pub struct Asked {
    pub mudt: u64,
    pub sst: u64,
    pub rpt: u64,
    pub rwa: u64,
    pub rra: u64,
    pub rfa: u64,
}
