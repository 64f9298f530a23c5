// Document 01, "One millisecond": what is left of a time and of a run, and where a run that is over has led.
ghost use Rattle.std.specs.Prelude.{◌≡◌, ◌-◌, min};
ghost use Rattle.runs.specs.Millisecond.{arrived_at};

use crate::{Goal, Run};
use heights::Place;
use params::Params;

impl Run {
    // How many of dt milliseconds come before the run's last one.
    pub fn before_last(self, dt: u64) -> u32
        ensures { result ≡ min dt (self.length - 1) }
    {
        let most = left(self.length, 1);
        dt.min(u64::from(most)) as u32
    }

    // The place of a blind whose run is over, from the place that it has come to.
    pub fn arrived_at(self, place: Place, params: Params) -> Place
        ensures { result ≡ arrived_at self.goal self.direction params place }
    {
        match self.goal {
            Goal::Full => heights::end(self.direction, params),
            Goal::Step | Goal::Position => place,
        }
    }
}

// What is left of a rest time or a length.
pub fn left(time: u32, gone: u32) -> u32
    ensures { result ≡ time - gone }
{
    time.saturating_sub(gone)
}
