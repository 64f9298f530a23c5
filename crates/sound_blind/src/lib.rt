// Document 01, "Sound", as far as it speaks of one blind: when a blind is sound, as a test of any contents.
#![tactic(auto)]

ghost use Rattle.std.specs.Prelude.{◌≡◌};
ghost use Rattle.sound_blind.specs.Sound.{longest, sound_run, whole, sound_wait, sound_running, sound_motion, sound};

use blind::{Blind, Motion};
use heights::{Direction, bottom, full_time};
use params::Params;
use runs::{Goal, Run};

#[tactic(auto, unfolding(crate::specs::Sound::sound))]
pub fn is_sound(blind: Blind) -> bool
    ensures { result ≡ sound blind }
{
    let params = blind.params;
    params.in_range()
        && blind.place.position <= bottom(params)
        && allows(params, blind.last, blind.motion)
}

#[tactic(auto, unfolding(crate::specs::Sound::sound_motion))]
fn allows(params: Params, last: Option<Direction>, motion: Motion) -> bool
    ensures { result ≡ sound_motion params last motion }
{
    match motion {
        Motion::Off(rest) => rest <= params.pause(),
        Motion::Waits(rest, run) => allows_wait(params, last, rest, run),
        Motion::Runs(run) => allows_running(params, last, run),
    }
}

#[tactic(auto, unfolding(crate::specs::Sound::sound_wait))]
fn allows_wait(params: Params, last: Option<Direction>, rest: u32, run: Run) -> bool
    ensures { result ≡ sound_wait params last rest run }
{
    1 <= rest
        && rest <= params.pause()
        && allows_length(params, run)
        && is_whole(params, run)
        && !run.goes_on(last)
}

#[tactic(auto, unfolding(crate::specs::Sound::sound_running))]
fn allows_running(params: Params, last: Option<Direction>, run: Run) -> bool
    ensures { result ≡ sound_running params last run }
{
    allows_length(params, run) && run.goes_on(last)
}

fn allows_length(params: Params, run: Run) -> bool
    ensures { result ≡ sound_run params run }
{
    (1..=longest(params, run)).contains(&run.length)
}

fn longest(params: Params, run: Run) -> u32
    ensures { result ≡ longest params run }
{
    match run.goal {
        Goal::Full | Goal::Position => full_time(run.direction, params),
        Goal::Step => params.sst,
    }
}

// Only a run that has begun may be shorter than it was ordered.
fn is_whole(params: Params, run: Run) -> bool
    ensures { result ≡ whole params run }
{
    match run.goal {
        Goal::Full => run.length == full_time(run.direction, params),
        Goal::Step => run.length == params.sst,
        Goal::Position => true,
    }
}
