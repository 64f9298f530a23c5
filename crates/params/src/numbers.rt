// Document 01, "Parameters of a blind": the numbers that a caller asks for, and the set that they are.
ghost use Rattle.std.specs.Prelude.{◌≡◌, cond};
ghost use Rattle.params.specs.Parameters.{defaults};
ghost use Rattle.params.specs.Numbers.{number_of, reaction_read, numbers_of, params_of, allowed, row_of, asked_of};

use crate::parameters::times_in_range;
use crate::{Asked, NoReaction, Params, Reaction, SET};

// The numbers in the paper's order.
#[tactic(auto, unfolding(crate::specs::Numbers::asked_of))]
impl From<[u64; SET]> for Asked {
    ghost from_gives = { λ numbers asked. asked ≡ asked_of numbers };

    fn from(numbers: [u64; SET]) -> Asked {
        Asked {
            mudt: numbers[0],
            sst: numbers[1],
            rpt: numbers[2],
            rwa: numbers[3],
            rra: numbers[4],
            rfa: numbers[5],
        }
    }
}

impl Asked {
    // The default set, for whoever installs without parameters.
    pub fn default_set() -> Asked
        ensures { result ≡ asked_of (numbers_of defaults) }
    {
        Asked::from(Params::default_set().numbers())
    }

    pub fn in_range(self) -> bool
        ensures { result ≡ allowed (row_of self) }
    {
        self.read().is_some()
    }

    // The set that the numbers are. Numbers that are not in range are no set; whoever asks all the same gets the default.
    pub fn params(self) -> Params
        ensures { result ≡ cond (allowed (row_of self)) (params_of (row_of self)) defaults }
    {
        self.read().unwrap_or(Params::default_set())
    }

    #[tactic(auto, unfolding(crate::specs::Numbers::allowed, crate::specs::Numbers::params_of, crate::specs::Parameters::in_range), using(crate::proofs::Ranges::times_fit))]
    fn read(self) -> Option<Params>
        ensures { result ≡ cond (allowed (row_of self)) (Some (params_of (row_of self))) None }
    {
        let rwa = Reaction::try_from(self.rwa).ok()?;
        let rra = Reaction::try_from(self.rra).ok()?;
        let rfa = Reaction::try_from(self.rfa).ok()?;
        if !times_in_range(self.mudt, self.sst, self.rpt) {
            return None;
        }
        Some(Params {
            mudt: self.mudt as u32,
            sst: self.sst as u32,
            rpt: self.rpt as u32,
            rwa,
            rra,
            rfa,
        })
    }
}

impl From<Reaction> for u64 {
    ghost from_gives = { λ reaction number. number ≡ number_of reaction };

    fn from(reaction: Reaction) -> u64 {
        match reaction {
            Reaction::Ignore => 0,
            Reaction::Up => 1,
            Reaction::Down => 2,
            Reaction::Stop => 3,
        }
    }
}

#[tactic(auto, unfolding(crate::specs::Numbers::reaction_of))]
impl TryFrom<u64> for Reaction {
    type Error = NoReaction;

    ghost try_from_gives = { λ number outcome. outcome ≡ reaction_read number };

    fn try_from(number: u64) -> Result<Reaction, NoReaction> {
        match number {
            0 => Ok(Reaction::Ignore),
            1 => Ok(Reaction::Up),
            2 => Ok(Reaction::Down),
            3 => Ok(Reaction::Stop),
            _ => Err(NoReaction(number)),
        }
    }
}
