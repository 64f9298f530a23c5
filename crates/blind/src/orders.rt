// Document 01, "Orders": what an order and a stop do to a blind, and what the fresh blind is. Each
// hands the new blind back.
ghost use Rattle.std.specs.Prelude.{◌≡◌};
ghost use Rattle.blind.specs.Orders.{started, ordered_off, ordered, motor_off, stopped, fresh_of};

use crate::{Blind, Flags, Motion};
use heights::Place;
use params::Params;
use runs::Run;

impl Blind {
    #[tactic(auto, unfolding(crate::specs::Orders::fresh_of))]
    pub fn fresh(params: Params) -> Blind
        ensures { result ≡ fresh_of params }
    {
        Blind {
            params,
            flags: Flags {
                wind: false,
                rain: false,
                frost: false,
                forced: None,
            },
            place: Place::UNKNOWN,
            last: None,
            motion: Motion::Off(params.pause()),
        }
    }

    #[tactic(auto, unfolding(crate::specs::Orders::ordered, crate::specs::Orders::ordered_at, crate::specs::Orders::ordered_running))]
    pub fn order(self, run: Run) -> Blind
        ensures { result ≡ ordered run self }
    {
        match self.motion {
            Motion::Off(rest) | Motion::Waits(rest, _) => self.order_off(rest, run),
            Motion::Runs(running) => {
                let next = if run.goes_on(running.last()) {
                    Motion::Runs(run)
                } else {
                    Motion::Waits(self.params.pause(), run)
                };
                self.with_motion(next)
            }
        }
    }

    #[tactic(auto, unfolding(crate::specs::Orders::ordered_off))]
    fn order_off(self, rest: u32, run: Run) -> Blind
        ensures { result ≡ ordered_off rest run self }
    {
        if run.must_wait(rest, self.last) {
            // Written out: by `with_motion` a telegram to many links takes longer.
            return Blind {
                motion: Motion::Waits(rest, run),
                ..self
            };
        }
        self.start(run)
    }

    // The last direction changes here and nowhere else: when the motor starts.
    #[tactic(auto, unfolding(crate::specs::Orders::started))]
    pub(crate) fn start(self, run: Run) -> Blind
        ensures { result ≡ started run self }
    {
        Blind {
            last: run.last(),
            motion: Motion::Runs(run),
            ..self
        }
    }

    #[tactic(auto, unfolding(crate::specs::Orders::stopped, crate::specs::Orders::stopped_at))]
    pub fn stop(self) -> Blind
        ensures { result ≡ stopped self }
    {
        match self.motion {
            Motion::Off(_) => self,
            Motion::Waits(rest, _) => self.with_motion(Motion::Off(rest)),
            Motion::Runs(_) => self.motor_off(),
        }
    }

    // Whenever a motion ends the rest time is the whole pause.
    #[tactic(auto, unfolding(crate::specs::Orders::motor_off))]
    pub(crate) fn motor_off(self) -> Blind
        ensures { result ≡ motor_off self }
    {
        self.with_motion(Motion::Off(self.params.pause()))
    }
}
