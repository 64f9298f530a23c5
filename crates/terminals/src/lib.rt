// Document 01, "What the panel is": a strip of 128 terminals (0 to 127). Which of them are taken is held in two words
// of 64, so that one look tells whether a terminal is taken.
#![tactic(auto)]

ghost use Rattle.std.specs.Prelude.{◌≡◌};
ghost use Rattle.tags.specs.Tags.{none, put};
ghost use Rattle.terminals.specs.Strip.{terminals, taken_of};

use tags::{PLACES, Tags};

// Terminals are the numbers below this one.
pub const TERMINALS: u64 = 128;

// The cells that a strip reading fills, one for each terminal.
pub const STRIP: usize = TERMINALS as usize;

// Not one word of 128: every call looks at up to 64 terminals, and a model of that in C, by the same compiler, took a third
// longer with one.
#[derive(Clone, Copy)]
pub struct Strip {
    low: Tags,
    high: Tags,
}

impl Strip {
    // No terminal is taken.
    #[tactic(auto, using(crate::proofs::Strips::strip_empty))]
    pub fn empty() -> Strip
        ensures { taken_of result ≡ none }
    {
        Strip {
            low: Tags::empty(),
            high: Tags::empty(),
        }
    }

    // Whether a terminal is taken.
    #[tactic(auto, using(crate::proofs::Strips::taken_low, crate::proofs::Strips::taken_high))]
    pub fn has(self, terminal: u8) -> bool
        ensures { result ≡ taken_of self terminal }
    {
        let at = u64::from(terminal);
        if at < PLACES {
            self.low.has(at)
        } else {
            self.high.has(at - PLACES)
        }
    }

    // The strip with a terminal taken.
    #[tactic(auto, using(crate::proofs::Strips::strip_low, crate::proofs::Strips::strip_high))]
    pub fn with(self, terminal: u8) -> Strip
        ensures { taken_of result ≡ put terminals terminal (taken_of self) }
    {
        let at = u64::from(terminal);
        if at < PLACES {
            Strip {
                low: self.low.with(at),
                ..self
            }
        } else {
            Strip {
                high: self.high.with(at - PLACES),
                ..self
            }
        }
    }
}
