// Document 01, "Parameters of a blind": the default set, the ranges, and the numbers of a set in the paper's order.
ghost use Rattle.std.specs.Prelude.{◌≡◌};
ghost use Rattle.params.specs.Parameters.{defaults, times_in_range, in_range};
ghost use Rattle.params.specs.Numbers.{numbers_of};

use crate::{Params, Reaction, SET};

impl Params {
    pub const DEFAULT: Params = Params {
        mudt: 60_000,
        sst: 200,
        rpt: 500,
        rwa: Reaction::Up,
        rra: Reaction::Up,
        rfa: Reaction::Stop,
    };

    #[tactic(auto, unfolding(crate::specs::Parameters::defaults))]
    pub fn default_set() -> Params
        ensures { result ≡ defaults }
    {
        Params::DEFAULT
    }

    #[tactic(auto, unfolding(crate::specs::Parameters::in_range))]
    pub fn in_range(self) -> bool
        ensures { result ≡ in_range self }
    {
        times_in_range(self.mudt.into(), self.sst.into(), self.rpt.into())
    }

    // How long the motor rests between opposite motions.
    pub fn pause(self) -> u32
        ensures { result ≡ self.rpt }
    {
        self.rpt
    }

    // In the paper's order. A method and no `From`: its name says what the array holds.
    #[tactic(auto, unfolding(crate::specs::Numbers::numbers_of))]
    pub fn numbers(self) -> [u64; SET]
        ensures { result ≡ numbers_of self }
    {
        [
            u64::from(self.mudt),
            u64::from(self.sst),
            u64::from(self.rpt),
            u64::from(self.rwa),
            u64::from(self.rra),
            u64::from(self.rfa),
        ]
    }
}

// Of numbers of any size, so that each can be outside its range.
#[tactic(auto, unfolding(crate::specs::Parameters::times_in_range, crate::specs::Parameters::within))]
pub(crate) fn times_in_range(mudt: u64, sst: u64, rpt: u64) -> bool
    ensures { result ≡ times_in_range mudt sst rpt }
{
    (1_000..=600_000).contains(&mudt)
        && (1..=10_000).contains(&sst)
        && sst <= mudt
        && (100..=10_000).contains(&rpt)
}
