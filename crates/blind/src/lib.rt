// One blind: what it is made of. Its orders and its millisecond stand in the modules below, one for each
// heading of document 01.
#![tactic(auto)]

mod millisecond;
mod orders;

ghost use Rattle.std.specs.Prelude.{◌≡◌};
ghost use Rattle.blind.specs.Fields.{with_motion};

use heights::{Direction, Place};
use params::Params;
use runs::Run;

// The alarms, each on or off with no value beside it, and the direction of the forced input, if it has one.
#[derive(Clone, Copy, PartialEq, Eq)]
pub struct Flags {
    pub wind: bool,
    pub rain: bool,
    pub frost: bool,
    pub forced: Option<Direction>,
}

// What the motor does. The rest time stands only where the motor is off: while it runs there is none.
#[derive(Clone, Copy, PartialEq, Eq)]
pub enum Motion {
    Off(u32),
    Waits(u32, Run),
    Runs(Run),
}

// The last direction is the one in which the motor started last; a fresh blind has either, and so it has none.
#[derive(Clone, Copy)]
pub struct Blind {
    pub params: Params,
    pub flags: Flags,
    pub last: Option<Direction>,
    pub place: Place,
    pub motion: Motion,
}

impl Blind {
    fn with_motion(self, motion: Motion) -> Blind
        ensures { result ≡ with_motion motion self }
    {
        Blind { motion, ..self }
    }
}
