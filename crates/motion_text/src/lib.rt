// A motion as text, put on a lent sheet: the rest time, the run, and the order that waits.
#![tactic(auto)]

ghost use Rattle.texts.specs.Lent.{Puts};
ghost use Rattle.motion_text.specs.MotionText.{direction_text, goal_text, run_text, motion_text};

use blind::Motion;
use decimals::put_number;
use heights::Direction;
use runs::{Goal, Run};
use texts::Sheet;

// While running the rest time is 0.
pub fn put_motion(sheet: &mut Sheet<'_>, motion: Motion)
    ensures { Puts (motion_text motion) sheet.old sheet.new }
{
    match motion {
        Motion::Off(rest) => {
            sheet.put_text(b" rest=");
            put_number(sheet, u64::from(rest));
            sheet.put_text(b" run=- wait=-");
        }
        Motion::Waits(rest, run) => {
            sheet.put_text(b" rest=");
            put_number(sheet, u64::from(rest));
            sheet.put_text(b" run=- wait=");
            put_run(sheet, run);
        }
        Motion::Runs(run) => {
            sheet.put_text(b" rest=0 run=");
            put_run(sheet, run);
            sheet.put_text(b" wait=-");
        }
    }
}

#[tactic(auto, using(texts::proofs::Sheets::pieces), unfolding(crate::specs::MotionText::run_text))]
fn put_run(sheet: &mut Sheet<'_>, run: Run)
    ensures { Puts (run_text run) sheet.old sheet.new }
{
    put_direction(sheet, run.direction);
    put_goal(sheet, run.goal);
    put_number(sheet, u64::from(run.length));
}

#[tactic(auto, unfolding(crate::specs::MotionText::direction_text, texts::specs::Text::text, laws::specs::Fills::tabulate))]
pub fn put_direction(sheet: &mut Sheet<'_>, direction: Direction)
    ensures { Puts (direction_text direction) sheet.old sheet.new }
{
    sheet.put_text(match direction {
        Direction::Up => b"up",
        Direction::Down => b"down",
    });
}

#[tactic(auto, unfolding(crate::specs::MotionText::goal_text, texts::specs::Text::text, laws::specs::Fills::tabulate))]
fn put_goal(sheet: &mut Sheet<'_>, goal: Goal)
    ensures { Puts (goal_text goal) sheet.old sheet.new }
{
    sheet.put_text(match goal {
        Goal::Full => b":full:",
        Goal::Step => b":step:",
        Goal::Position => b":pos:",
    });
}
