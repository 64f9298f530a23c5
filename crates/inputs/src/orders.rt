// Document 01, "Orders": what the inputs MUD, STOP, SSUD and SAPBP order. What a byte for SAPBP asks is
// worked out first, as an aim, and then followed.
ghost use Rattle.std.specs.Prelude.{◌≡◌};
ghost use Rattle.inputs.specs.Inputs.{full_run, step, mud, steps, ssud, towards, aimed_between, aimed, followed, sapbp, acted};

use crate::{Aim, Command};
use blind::{Blind, Motion};
use heights::{Direction, Way, full_time, target};
use params::Params;
use runs::{Goal, Run};

#[tactic(auto, unfolding(crate::specs::Inputs::acted))]
pub fn act(blind: Blind, command: Command) -> Blind
    ensures { result ≡ acted command blind }
{
    match command {
        Command::Stop => blind.stop(),
        Command::Move(direction) => mud(blind, direction),
        Command::Step(direction) => ssud(blind, direction),
        Command::Position(v) => sapbp(blind, v),
    }
}

#[tactic(auto, unfolding(crate::specs::Inputs::mud))]
pub fn mud(blind: Blind, direction: Direction) -> Blind
    ensures { result ≡ mud direction blind }
{
    blind.order(full_run(blind.params, direction))
}

fn full_run(params: Params, direction: Direction) -> Run
    ensures { result ≡ full_run direction params }
{
    Run {
        direction,
        goal: Goal::Full,
        length: full_time(direction, params),
    }
}

#[tactic(auto, unfolding(crate::specs::Inputs::ssud))]
fn ssud(blind: Blind, direction: Direction) -> Blind
    ensures { result ≡ ssud direction blind }
{
    if steps(blind.motion) {
        blind.order(step(blind.params, direction))
    } else {
        blind.stop()
    }
}

fn step(params: Params, direction: Direction) -> Run
    ensures { result ≡ step direction params }
{
    Run {
        direction,
        goal: Goal::Step,
        length: params.sst,
    }
}

fn steps(motion: Motion) -> bool
    ensures { result ≡ steps motion }
{
    match motion {
        Motion::Off(_) => true,
        Motion::Waits(_, run) | Motion::Runs(run) => run.goal == Goal::Step,
    }
}

#[tactic(auto, unfolding(crate::specs::Inputs::sapbp))]
fn sapbp(blind: Blind, v: u8) -> Blind
    ensures { result ≡ sapbp v blind }
{
    follow(blind, aim(blind, v))
}

#[tactic(auto, unfolding(crate::specs::Inputs::followed))]
fn follow(blind: Blind, aim: Aim) -> Blind
    ensures { result ≡ followed aim blind }
{
    match aim {
        Aim::Dropped => blind,
        Aim::Full(direction) => mud(blind, direction),
        Aim::To(way) => towards(blind, way),
    }
}

#[tactic(auto, unfolding(crate::specs::Inputs::towards))]
fn towards(blind: Blind, way: Way) -> Blind
    ensures { result ≡ towards way blind }
{
    match way {
        Way::Met => blind.stop(),
        Way::Go(direction, length) => blind.order(Run {
            direction,
            goal: Goal::Position,
            length,
        }),
    }
}

// An end is a full run, whatever the position; anything between is a run to its target.
#[tactic(auto, unfolding(crate::specs::Inputs::aimed))]
pub fn aim(blind: Blind, v: u8) -> Aim
    ensures { result ≡ aimed v blind }
{
    if v == 0 {
        return Aim::Full(Direction::Up);
    }
    if v == 255 {
        return Aim::Full(Direction::Down);
    }
    aim_between(blind, v)
}

#[tactic(auto, unfolding(crate::specs::Inputs::aimed_between))]
fn aim_between(blind: Blind, v: u8) -> Aim
    ensures { result ≡ aimed_between v blind }
{
    if blind.place.valid {
        Aim::To(blind.place.way_to(target(v, blind.params), blind.params))
    } else {
        Aim::Dropped
    }
}
