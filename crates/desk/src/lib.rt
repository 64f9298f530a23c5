// A command carried out on a panel: the panel's own call, or what a display shows, and the answer on a lent sheet.
#![tactic(auto)]

mod files;
mod motors;

ghost use Rattle.std.specs.Prelude.{◌≡◌};
ghost use Rattle.answers.specs.Numbers.{answer_of};
ghost use Rattle.answers.specs.Rules.{carried};
ghost use Rattle.panel.specs.Panel.{model_of};
ghost use Rattle.panel.specs.Calls.{row, no_cells, handed};
ghost use Rattle.readings.specs.Inventory.{blinds_of, lowest_of};
ghost use Rattle.texts.specs.Lent.{on, Puts};
ghost use Rattle.desk.specs.Desk.{Leaves, edited, celled, inventory_text, edit_rule, carried_out};

use crate::files::{clear, lent_of, put_file};
use crate::motors::{OFF, widened};
use answers::{Answered, Refusal};
use commands::{Command, Edit};
use display::percent;
use installs::install;
use outputs::NO_REPORT;
use panel::Panel;
use panel_text::put_panel;
use plant_writer::write;
use readings::inventory::{Counted, inventory};
use readings::strips::strip;
use reason_text::put_reason;
use removals::remove_blind;
use shows::cells::put_outcome_with_cells;
use shows::numbers::{put_outcome, put_spaced};
use splices::{splice_in, splice_out};
use tags::CELLS;
use telegrams::telegram;
use terminals::STRIP;
use texts::Sheet;
use time_steps::time_step;
use why::why;
use wiring::{add_link, remove_link};
use writes::write_params;

// Carries out a command and writes its answer, without a line feed.
#[tactic(auto, unfolding(crate::specs::Desk::carried_out, texts::specs::Text::text, laws::specs::Fills::tabulate))]
pub fn carry_out(panel: Panel, command: Command, sheet: &mut Sheet<'_>) -> Panel
    ensures { Leaves (carried_out command (model_of panel) (on sheet.old)) result sheet.old sheet.new }
{
    match command {
        Command::New => {
            sheet.put(b'0');
            Panel::empty()
        }
        Command::Show => {
            put_panel(sheet, &panel);
            panel
        }
        Command::Strip => read_strip(panel, sheet),
        Command::Inv => take_inventory(panel, sheet),
        Command::Edit(edit) => tell(apply(panel, edit), sheet),
        Command::Tel(address, value) => send(panel, address, value, sheet),
        Command::Time(dt) => pass(panel, dt, sheet),
        Command::Percent(raw) => tell_percent(panel, raw, sheet),
        Command::Why(tag, address, value) => {
            put_reason(sheet, why(&panel, tag, address, value));
            panel
        }
        Command::Write(lent) => tell_file(panel, lent, sheet),
    }
}

// An edit by the panel's own call.
fn apply(panel: Panel, edit: Edit) -> Answered<Panel>
    ensures { handed result no_cells ≡ carried (edit_rule edit) (model_of panel) no_cells }
{
    match edit {
        Edit::Install(tag, terminal, set) => install(panel, tag, terminal, set),
        Edit::Remove(tag) => remove_blind(panel, tag),
        Edit::Params(tag, set) => write_params(panel, tag, set),
        Edit::Link(address, tag, kind) => add_link(panel, address, tag, kind),
        Edit::Unlink(address, tag, kind) => remove_link(panel, address, tag, kind),
        Edit::In(t, n) => splice_in(panel, t, n),
        Edit::Out(t, n) => splice_out(panel, t, n),
    }
}

// The answer of an edit.
fn tell(done: Answered<Panel>, sheet: &mut Sheet<'_>) -> Panel
    ensures { Leaves (edited (handed done no_cells) (on sheet.old)) result sheet.old sheet.new }
{
    put_outcome(sheet, done.outcome);
    done.state
}

#[tactic(auto, unfolding(crate::specs::Desk::carried_out))]
fn take_inventory(panel: Panel, sheet: &mut Sheet<'_>) -> Panel
    ensures { Leaves (carried_out Command.Inv (model_of panel) (on sheet.old)) result sheet.old sheet.new }
{
    put_inventory(sheet, inventory(&panel));
    panel
}

// The blinds with the number of the table, and the lowest free tag.
#[tactic(auto, using(texts::proofs::Sheets::pieces), unfolding(shows::specs::Numbers::counted))]
fn put_inventory(sheet: &mut Sheet<'_>, stock: Result<Counted, Refusal>)
    ensures { Puts (inventory_text (answer_of stock) (blinds_of stock) (lowest_of stock)) sheet.old sheet.new }
{
    match stock {
        Ok(counted) => {
            put_outcome(sheet, Ok(u64::from(counted.blinds)));
            put_spaced(sheet, u64::from(counted.lowest));
        }
        Err(refusal) => {
            put_outcome(sheet, Err(refusal));
            put_spaced(sheet, 0);
        }
    }
}

#[tactic(auto, unfolding(crate::specs::Desk::carried_out))]
fn send(panel: Panel, address: u64, value: u64, sheet: &mut Sheet<'_>) -> Panel
    ensures { Leaves (carried_out (Command.Tel address value) (model_of panel) (on sheet.old)) result sheet.old sheet.new }
{
    let mut cells = [NO_REPORT; CELLS];
    let done = telegram(panel, address, value, &mut cells);
    tell_cells(done, NO_REPORT, &cells, sheet)
}

#[tactic(auto, unfolding(crate::specs::Desk::carried_out))]
fn pass(panel: Panel, dt: u64, sheet: &mut Sheet<'_>) -> Panel
    ensures { Leaves (carried_out (Command.Time dt) (model_of panel) (on sheet.old)) result sheet.old sheet.new }
{
    let mut cells = [NO_REPORT; CELLS];
    let done = time_step(panel, dt, &mut cells);
    tell_cells(done, NO_REPORT, &cells, sheet)
}

#[tactic(auto, unfolding(crate::specs::Desk::carried_out))]
fn read_strip(panel: Panel, sheet: &mut Sheet<'_>) -> Panel
    ensures { Leaves (carried_out Command.Strip (model_of panel) (on sheet.old)) result sheet.old sheet.new }
{
    let mut cells = [OFF; STRIP];
    let done = strip(panel, &mut cells);
    let shown = widened(cells);
    tell_cells(done, u16::from(OFF), &shown, sheet)
}

// What a display shows for a byte; a number that is none is out of range.
#[tactic(auto, unfolding(crate::specs::Desk::carried_out, crate::specs::Desk::percent_text))]
fn tell_percent(panel: Panel, raw: u64, sheet: &mut Sheet<'_>) -> Panel
    ensures { Leaves (carried_out (Command.Percent raw) (model_of panel) (on sheet.old)) result sheet.old sheet.new }
{
    let shown = match u8::try_from(raw) {
        Ok(byte) => Ok(u64::from(percent(byte))),
        Err(_) => Err(Refusal::OutOfRange),
    };
    put_outcome(sheet, shown);
    panel
}

// The plant file, in as many bytes of the buffer as are to be lent.
#[tactic(auto, unfolding(crate::specs::Desk::carried_out))]
fn tell_file(panel: Panel, asked: u64, sheet: &mut Sheet<'_>) -> Panel
    ensures { Leaves (carried_out (Command.Write asked) (model_of panel) (on sheet.old)) result sheet.old sheet.new }
{
    let mut buffer = clear();
    let lent = lent_of(asked);
    let written = write(&panel, &mut buffer[..lent]);
    put_file(sheet, written, &buffer[..lent]);
    panel
}

// The answer of a call that was lent cells.
fn tell_cells(done: Answered<Panel>, idle: u16, cells: &[u16], sheet: &mut Sheet<'_>) -> Panel
    ensures { Leaves (celled idle (handed done (row cells.now)) (on sheet.old)) result sheet.old sheet.new }
{
    put_outcome_with_cells(sheet, done.outcome, idle, cells);
    done.state
}
