// Document 01, "Reports and strip": a strip reading fills 128 lent cells: 0 off, 1 up, 2 down, and 0 where no blind
// stands. The panel is read and handed back as it was.
ghost use Rattle.panel.specs.Calls.{row, Does};
ghost use Rattle.readings.specs.Strip.{strip_rule};

use answers::{Answered, Refusal};
use outputs::motor;
use panel::Panel;
use tags::CELLS;
use terminals::STRIP;

const OFF: u8 = 0;

// Each blind gives its motor command to the cell of its terminal.
#[tactic(auto, unfolding(crate::specs::Strip::strip_rule))]
pub fn strip(panel: Panel, cells: &mut [u8]) -> Answered<Panel>
    ensures { Does strip_rule panel (row cells.old) result (row cells.new) }
{
    if cells.len() != STRIP {
        return Answered::refused(panel, Refusal::WrongCells);
    }
    if !panel.is_sound() {
        return Answered::refused(panel, Refusal::NotSound);
    }
    cells.fill(OFF);
    for tag in 0..CELLS {
        if let Some(seat) = panel.seat(tag) {
            let terminal = usize::from(seat.terminal);
            let command = motor(seat.blind);
            cells[terminal] = command;
        }
    }
    Answered::done(panel, 0)
}
