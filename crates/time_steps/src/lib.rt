// Document 01, "One millisecond": a time step of dt, 0 to 60,000, is dt milliseconds for every blind.
#![tactic(auto)]

ghost use Rattle.std.specs.Prelude.{◌≡◌, cond};
ghost use Rattle.milliseconds.specs.Milliseconds.{milliseconds};
ghost use Rattle.panel.specs.Calls.{row, Does};
ghost use Rattle.time_steps.specs.TimeSteps.{step_rule};

use answers::{Answered, Refusal};
use blind::Blind;
use milliseconds::milliseconds;
use outputs::cell;
use panel::Panel;
use tags::CELLS;

const LONGEST: u64 = 60000;

// Every blind by itself: no blind's time hangs on another's, so each is stepped and reported in one turn.
#[tactic(auto, unfolding(crate::specs::TimeSteps::step_rule))]
pub fn time_step(mut panel: Panel, dt: u64, cells: &mut [u16]) -> Answered<Panel>
    ensures { Does (step_rule dt) panel (row cells.old) result (row cells.new) }
{
    if cells.len() != CELLS {
        return Answered::refused(panel, Refusal::WrongCells);
    }
    if !panel.is_sound() {
        return Answered::refused(panel, Refusal::NotSound);
    }
    if LONGEST < dt {
        return Answered::refused(panel, Refusal::OutOfRange);
    }
    let present = panel.present;
    // By the tag: seats and cells are written at it, and two iterators over them beside the presence word are no plainer.
    for tag in 0..CELLS {
        let there = present.has(tag as u64);
        let old = panel.seats[tag].blind;
        let new = later(there, old, dt);
        panel.seats[tag].blind = new;
        cells[tag] = cell(there, old, new) as u16;
    }
    Answered::done(panel, 0)
}

// A place whose tag is absent is passed over: nothing there is a blind. `there` is a bit of the presence word, beside a blind
// that stands at every place.
fn later(there: bool, blind: Blind, dt: u64) -> Blind
    ensures { result ≡ cond there (milliseconds dt blind) blind }
{
    if there {
        milliseconds(blind, dt)
    } else {
        blind
    }
}
