// Document 01, "One millisecond": a time step of dt is dt milliseconds, here for one blind.
#![tactic(auto)]

ghost use Rattle.std.specs.Prelude.{◌≡◌};
ghost use Rattle.milliseconds.specs.Milliseconds.{milliseconds};

use blind::{Blind, Motion};
use runs::Run;

pub fn milliseconds(blind: Blind, dt: u64) -> Blind
    ensures { result ≡ milliseconds dt blind }
{
    match blind.motion {
        Motion::Off(rest) => rest_on(blind, rest, dt),
        Motion::Waits(_, _) => one_by_one(blind, dt),
        Motion::Runs(run) => run_on(blind, run, dt),
    }
}

#[tactic(auto, unfolding(crate::specs::Milliseconds::milliseconds))]
fn one_by_one(mut blind: Blind, dt: u64) -> Blind
    ensures { result ≡ milliseconds dt blind }
{
    for _ in 0..dt {
        blind = blind.millisecond();
    }
    blind
}

// At rest the rest time alone falls, so it falls at once, however long the step.
#[tactic(auto, using(crate::proofs::AtOnce::rested))]
fn rest_on(blind: Blind, rest: u32, dt: u64) -> Blind
    requires { blind.motion ≡ Motion.Off rest }
    ensures { result ≡ milliseconds dt blind }
{
    let left = u64::from(rest).saturating_sub(dt) as u32;
    Blind {
        motion: Motion::Off(left),
        ..blind
    }
}

// Until its last millisecond a run changes the place and its length alone, so only these are worked on.
#[tactic(auto, using(crate::proofs::AtOnce::whole), unfolding(runs::specs::Millisecond::shorter))]
fn run_on(blind: Blind, run: Run, dt: u64) -> Blind
    requires { blind.motion ≡ Motion.Runs run }
    ensures { result ≡ milliseconds dt blind }
{
    let smooth = run.before_last(dt);
    let place = blind.place.after(smooth, run.direction, blind.params);
    let shorter = Run {
        length: run.length - smooth,
        ..run
    };
    let moved = Blind {
        place,
        motion: Motion::Runs(shorter),
        ..blind
    };
    let rest = dt - smooth as u64;
    one_by_one(moved, rest)
}
