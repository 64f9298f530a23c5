// Document 01, "Who rules a blind": the ruler that flags and reactions give, and the duty that the ruler
// gives.
ghost use Rattle.std.specs.Prelude.{◌≡◌, cond};
ghost use Rattle.duties.specs.Rulers.{counts, forced_ruler, ruler_of, reaction_duty, forced_duty, duty_under, duty_of};

use crate::{Duty, Ruler};
use blind::Blind;
use heights::Direction;
use params::Reaction;

#[tactic(auto, unfolding(crate::specs::Rulers::ruler_of))]
pub fn ruler(blind: Blind) -> Ruler
    ensures { result ≡ ruler_of blind }
{
    let flags = blind.flags;
    let params = blind.params;
    let forced = forced_ruler(flags.forced);
    let frost = alarm(flags.frost, params.rfa, Ruler::Frost, forced);
    let rain = alarm(flags.rain, params.rra, Ruler::Rain, frost);
    alarm(flags.wind, params.rwa, Ruler::Wind, rain)
}

// An alarm that is off or ignored leaves the blind to those below it.
fn alarm(on: bool, reaction: Reaction, ruler: Ruler, below: Ruler) -> Ruler
    ensures { result ≡ cond (counts on reaction) ruler below }
{
    if counts(on, reaction) { ruler } else { below }
}

fn counts(on: bool, reaction: Reaction) -> bool
    ensures { result ≡ counts on reaction }
{
    on && reaction != Reaction::Ignore
}

fn forced_ruler(forced: Option<Direction>) -> Ruler
    ensures { result ≡ forced_ruler forced }
{
    match forced {
        None => Ruler::Nobody,
        Some(_) => Ruler::Forced,
    }
}

#[tactic(auto, unfolding(crate::specs::Rulers::duty_of))]
pub fn duty(blind: Blind) -> Duty
    ensures { result ≡ duty_of blind }
{
    duty_under(ruler(blind), blind)
}

#[tactic(auto, unfolding(crate::specs::Rulers::duty_under))]
fn duty_under(ruler: Ruler, blind: Blind) -> Duty
    ensures { result ≡ duty_under ruler blind }
{
    let params = blind.params;
    match ruler {
        Ruler::Nobody => Duty::Free,
        Ruler::Wind => reaction_duty(params.rwa),
        Ruler::Rain => reaction_duty(params.rra),
        Ruler::Frost => reaction_duty(params.rfa),
        Ruler::Forced => forced_duty(blind.flags.forced),
    }
}

fn reaction_duty(reaction: Reaction) -> Duty
    ensures { result ≡ reaction_duty reaction }
{
    match reaction {
        Reaction::Ignore => Duty::Free,
        Reaction::Up => Duty::Up,
        Reaction::Down => Duty::Down,
        Reaction::Stop => Duty::Hold,
    }
}

fn forced_duty(forced: Option<Direction>) -> Duty
    ensures { result ≡ forced_duty forced }
{
    match forced {
        None => Duty::Free,
        Some(Direction::Up) => Duty::Up,
        Some(Direction::Down) => Duty::Down,
    }
}
