// Document 01, "Reports and strip", for one blind: the motor command, whether the blind is busy, and what it
// reports after a call. Nothing here changes a blind.
#![tactic(auto)]

ghost use Rattle.std.specs.Prelude.{◌≡◌, cond};
ghost use Rattle.outputs.specs.Reports.{command, motor_of, active, busy, no_report, report};

use blind::{Blind, Motion};
use heights::Direction;

// What a cell holds where a blind has nothing to report: a number like the motor commands below, since document 01,
// "Reports and strip", fixes what the cells hold.
pub const NO_REPORT: u16 = 512;

#[tactic(auto, unfolding(crate::specs::Reports::motor_of))]
pub fn motor(blind: Blind) -> u8
    ensures { result ≡ motor_of blind }
{
    match blind.motion {
        Motion::Off(_) | Motion::Waits(_, _) => 0,
        Motion::Runs(run) => command(run.direction),
    }
}

#[tactic(auto, unfolding(crate::specs::Reports::busy))]
pub fn is_busy(blind: Blind) -> bool
    ensures { result ≡ busy blind }
{
    match blind.motion {
        Motion::Off(rest) => 0 < rest,
        Motion::Waits(_, _) | Motion::Runs(_) => true,
    }
}

// Nothing is told on the way: a position is told when the motion that a call found is over.
#[tactic(auto, unfolding(crate::specs::Reports::report))]
pub fn report(before: Blind, after: Blind) -> u64
    ensures { result ≡ report before after }
{
    if is_active(before) && !is_active(after) {
        after.place.told(after.params)
    } else {
        u64::from(NO_REPORT)
    }
}

// The cell of a tag after a call. A tag without a blind has nothing to report. `there` stands beside the blinds, since
// a panel has a place for a blind at every tag and says by one bit of its word whether it counts.
pub fn cell(there: bool, before: Blind, after: Blind) -> u64
    ensures { result ≡ cond there (report before after) no_report }
{
    let none = u64::from(NO_REPORT);
    if there { report(before, after) } else { none }
}

// Running or waiting.
#[tactic(auto, unfolding(crate::specs::Reports::active))]
pub fn is_active(blind: Blind) -> bool
    ensures { result ≡ active blind }
{
    !matches!(blind.motion, Motion::Off(_))
}

fn command(direction: Direction) -> u8
    ensures { result ≡ command direction }
{
    match direction {
        Direction::Up => 1,
        Direction::Down => 2,
    }
}
