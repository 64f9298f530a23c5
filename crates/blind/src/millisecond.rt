// Document 01, "One millisecond": what each millisecond does to a blind.
ghost use Rattle.std.specs.Prelude.{◌≡◌};
ghost use Rattle.blind.specs.Millisecond.{waited, moved, ran, millisecond};

use crate::{Blind, Motion};
use heights::Direction;
use runs::Run;
use runs::millisecond::left;

impl Blind {
    #[tactic(auto, unfolding(crate::specs::Millisecond::millisecond, crate::specs::Millisecond::millisecond_at))]
    pub fn millisecond(self) -> Blind
        ensures { result ≡ millisecond self }
    {
        // Copied first: matched in place, a millisecond of waiting takes half as long again.
        let motion = self.motion;
        match motion {
            Motion::Off(rest) => self.with_motion(Motion::Off(left(rest, 1))),
            Motion::Waits(rest, run) => self.wait(rest, run),
            Motion::Runs(run) => self.run(run),
        }
    }

    #[tactic(auto, unfolding(crate::specs::Millisecond::waited))]
    fn wait(self, rest: u32, run: Run) -> Blind
        ensures { result ≡ waited rest run self }
    {
        if rest == 1 {
            return self.start(run);
        }
        self.with_motion(Motion::Waits(left(rest, 1), run))
    }

    #[tactic(auto, unfolding(crate::specs::Millisecond::ran, crate::specs::Millisecond::arrived, runs::specs::Millisecond::shorter))]
    fn run(self, run: Run) -> Blind
        ensures { result ≡ ran run self }
    {
        let moved = self.moved(run.direction);
        let shorter = Run {
            length: left(run.length, 1),
            ..run
        };
        if shorter.length == 0 {
            let mut off = moved.motor_off();
            off.place = run.arrived_at(off.place, off.params);
            return off;
        }
        moved.with_motion(Motion::Runs(shorter))
    }

    #[tactic(auto, unfolding(crate::specs::Millisecond::moved))]
    fn moved(self, direction: Direction) -> Blind
        ensures { result ≡ moved direction self }
    {
        let place = self.place.next(direction, self.params);
        Blind { place, ..self }
    }
}
