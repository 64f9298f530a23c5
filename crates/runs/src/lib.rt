// A run: which way the motor goes, what for and how long. What is asked of it stands in the modules below, one
// for each heading of document 01.
#![tactic(auto)]

pub mod millisecond;
mod orders;

use heights::Direction;

// What a run goes for. It is part of the run: a step may be as long as a full run.
#[derive(Clone, Copy, PartialEq, Eq)]
pub enum Goal {
    Full,
    Step,
    Position,
}

#[derive(Clone, Copy, PartialEq, Eq)]
pub struct Run {
    pub direction: Direction,
    pub goal: Goal,
    pub length: u32,
}
