// Document 01, "Who rules a blind": what a telegram does to a blind. A new flag or new parameters may
// change the duty, and a changed duty brings its order; a command reaches the motor only under the duty Free.
#![tactic(auto)]

pub mod edits;

ghost use Rattle.std.specs.Prelude.{◌≡◌};
ghost use Rattle.inputs.specs.Inputs.{acted};
ghost use Rattle.rules.specs.Rules.{order_of, ruled, with_flag, flagged, commanded, heeded};

use blind::{Blind, Flags};
use duties::Duty;
use duties::rulers::duty;
use heights::Direction;
use inputs::Command;
use inputs::orders::{act, mud};
use values::{Flag, Input};

#[tactic(auto, unfolding(crate::specs::Rules::heeded))]
pub fn heed(blind: Blind, input: Input) -> Blind
    ensures { result ≡ heeded input blind }
{
    match input {
        Input::Set(flag) => set(blind, flag),
        Input::Command(command) => command_free(blind, command),
    }
}

#[tactic(auto, unfolding(crate::specs::Rules::flagged))]
fn set(blind: Blind, flag: Flag) -> Blind
    ensures { result ≡ flagged flag blind }
{
    let before = duty(blind);
    let flags = with_flag(blind.flags, flag);
    ruled(Blind { flags, ..blind }, before)
}

fn with_flag(flags: Flags, flag: Flag) -> Flags
    ensures { result ≡ with_flag flag flags }
{
    match flag {
        Flag::Wind(on) => Flags { wind: on, ..flags },
        Flag::Rain(on) => Flags { rain: on, ..flags },
        Flag::Frost(on) => Flags { frost: on, ..flags },
        Flag::Force(forced) => Flags { forced, ..flags },
    }
}

// A blind whose flags or parameters are new: only a duty that is another one now brings an order.
#[tactic(auto, unfolding(crate::specs::Rules::ruled))]
pub(crate) fn ruled(blind: Blind, before: Duty) -> Blind
    ensures { result ≡ ruled before blind }
{
    let now = duty(blind);
    if before == now {
        blind
    } else {
        obey(blind, now)
    }
}

// Not by `act`: where one place alone asks for it, `act` is compiled into a telegram's loop, and a link takes half the time.
#[tactic(auto, unfolding(inputs::specs::Inputs::acted))]
fn obey(blind: Blind, duty: Duty) -> Blind
    ensures { result ≡ acted (order_of duty) blind }
{
    match duty {
        Duty::Free | Duty::Hold => blind.stop(),
        Duty::Up => mud(blind, Direction::Up),
        Duty::Down => mud(blind, Direction::Down),
    }
}

// A command under another duty is dropped for good: nothing of it is kept.
#[tactic(auto, unfolding(crate::specs::Rules::commanded))]
fn command_free(blind: Blind, command: Command) -> Blind
    ensures { result ≡ commanded command blind }
{
    if duty(blind) == Duty::Free {
        act(blind, command)
    } else {
        blind
    }
}
