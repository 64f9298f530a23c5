// The inputs that command a blind: what MUD, STOP, SSUD and SAPBP order, whoever rules.
#![tactic(auto)]

pub mod orders;

use heights::{Direction, Way};

// Kinds 4 to 7: MUD, STOP, SSUD and SAPBP with its byte.
#[derive(Clone, Copy)]
pub enum Command {
    Stop,
    Move(Direction),
    Step(Direction),
    Position(u8),
}

// What a byte for SAPBP asks of a blind: nothing, an end, or the way to a target between the ends. Three cases of equal
// rank, each with a row of its own in `followed`: an Option of the other two would only nest them.
#[derive(Clone, Copy)]
pub enum Aim {
    Dropped,
    Full(Direction),
    To(Way),
}
