// A script: commands in the language of replay, one a line, each with the answer that it should give after an equals sign,
// as in `time 499 = 0 0`. A line without the sign, a comment or an empty one, is to be answered by nothing.
#![tactic(auto)]

ghost use Rattle.std.specs.Prelude.{◌≡◌};
ghost use Rattle.texts.specs.Text.{same as ofText·same};
ghost use Rattle.texts.specs.Lent.{on};
ghost use Rattle.rows.specs.Lines.{lines};
ghost use Rattle.scripts.specs.Scripts.{course_of, answer_on, tried, followed, script_holds};

use panel::Panel;
use replies::answer_line;
use rows::{line_end, place_of};
use texts::Sheet;
use words::is_same;

const EQUALS: u8 = b'=';

// How many bytes stand before the answer: the sign and a space.
const BEFORE_ANSWER: usize = 2;

// A panel on its way through a script, and whether every answer so far was the expected one. No Option: after a wrong answer
// the script goes on, as its definition `followed` does.
#[derive(Clone, Copy)]
struct Trial {
    panel: Panel,
    same: bool,
}

// Whether every answer of a script, carried out on an empty panel, is the expected one. The sheet takes up the answers.
#[tactic(auto, unfolding(crate::specs::Scripts::script_holds))]
pub fn holds(script: &[u8], sheet: &mut [u8]) -> bool
    ensures { result ≡ script_holds script.now sheet.old }
{
    let begun = Trial {
        panel: Panel::empty(),
        same: true,
    };
    follow(begun, script, sheet).same
}

// The lines of a script one after the other. `split` would make an empty line more of what follows the last line feed.
#[tactic(auto, using(rows::proofs::NextLine::place_within))]
fn follow(trial: Trial, script: &[u8], sheet: &mut [u8]) -> Trial
    ensures { course_of result sheet.new ≡ followed (lines script.now) (course_of trial sheet.old) }
{
    let mut next = trial;
    let mut start = 0;
    while start < script.len() {
        let end = line_end(script, start);
        next = try_line(next, &script[start..end], sheet);
        start = end + 1;
    }
    next
}

#[tactic(auto, using(crate::proofs::LineByLine::line_tried))]
fn try_line(trial: Trial, line: &[u8], sheet: &mut [u8]) -> Trial
    ensures { course_of result sheet.new ≡ tried line.now (course_of trial sheet.old) }
{
    let sign = place_of(EQUALS, line, 0);
    let mut answers = Sheet {
        bytes: sheet,
        at: 0,
    };
    let panel = answer_line(trial.panel, 1, &line[..sign], &mut answers);
    let from = (sign + BEFORE_ANSWER).min(line.len());
    let right = is_answer(&line[from..], &answers);
    let same = trial.same & right;
    Trial { panel, same }
}

// Whether this is the answer on the sheet, without its line feed.
fn is_answer(expected: &[u8], sheet: &Sheet<'_>) -> bool
    ensures { result ≡ ofText·same expected.now (answer_on (on sheet.now)) }
{
    let end = sheet.at.saturating_sub(1).min(sheet.bytes.len());
    is_same(expected, &sheet.bytes[..end])
}
