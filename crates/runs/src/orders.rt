// Document 01, "Orders": a run beside the last direction, and whether its order waits.
ghost use Rattle.std.specs.Prelude.{◌≡◌};
ghost use Rattle.runs.specs.Orders.{last_of, is_last, must_wait};

use crate::Run;
use heights::Direction;

impl Run {
    // The last direction once the motor has started for this run.
    pub fn last(self) -> Option<Direction>
        ensures { result ≡ last_of self.direction }
    {
        Some(self.direction)
    }

    // Whether the run goes the way that the motor went last. A fresh blind has no last direction.
    pub fn goes_on(self, last: Option<Direction>) -> bool
        ensures { result ≡ is_last self.direction last }
    {
        last == Some(self.direction)
    }

    pub fn must_wait(self, rest: u32, last: Option<Direction>) -> bool
        ensures { result ≡ must_wait rest self.direction last }
    {
        0 < rest && !self.goes_on(last)
    }
}
