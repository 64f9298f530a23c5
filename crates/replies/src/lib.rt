// The bench, a line in and an answer line out: each line is carried out on a panel, and its answer is written on a lent
// sheet. A line that is wrong changes nothing and is answered all the same.
#![tactic(auto)]

mod files;

ghost use Rattle.panel.specs.Panel.{model_of};
ghost use Rattle.texts.specs.Lent.{on};
ghost use Rattle.desk.specs.Desk.{Leaves};
ghost use Rattle.replies.specs.Replies.{line_done};

use crate::files::load;
use commands::Meaning;
use commands::lines::read_line;
use desk::carry_out;
use fault_text::put_error;
use panel::Panel;
use texts::Sheet;

// Carries out a line, given without its line feed, and writes its answer. The number is the line's own.
#[tactic(auto, unfolding(crate::specs::Replies::line_done, crate::specs::Replies::replied, texts::specs::Sheet::puts))]
pub fn answer_line(panel: Panel, number: u64, line: &[u8], sheet: &mut Sheet<'_>) -> Panel
    ensures { Leaves (line_done number line.now (model_of panel) (on sheet.old)) result sheet.old sheet.new }
{
    let next = match read_line(line) {
        Meaning::Silent => return panel,
        Meaning::Call(command) => carry_out(panel, command, sheet),
        Meaning::File => load(line, sheet),
        Meaning::Wrong(fault) => {
            put_error(sheet, number, fault);
            panel
        }
    };
    sheet.put(b'\n');
    next
}
