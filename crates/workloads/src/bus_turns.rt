// The calls of the bus, each made n times.
use crate::course::repeated;
use crate::tally::Tally;
use panel::Panel;
use readings::strips::strip;
use telegrams::telegram;
use time_steps::time_step;

// How long the blinds of a workload surely run.
const RUNNING: u64 = 540_000;

// Every call finds the blinds running: before their runs end they start again from the first panel.
pub(crate) fn time_steps(first: Panel, dt: u64, n: u64, cells: &mut [u16]) -> Tally {
    let period = if dt == 0 { RUNNING } else { RUNNING / dt };
    let tally = repeated(first, n, |panel, turn| {
        if period == 0 || turn % period == 0 {
            time_step(first, dt, cells)
        } else {
            time_step(panel, dt, cells)
        }
    });
    tally.with_cells(cells)
}

// Up and down in turn: one run goes off and waits, the next starts again.
pub(crate) fn telegrams(first: Panel, address: u64, n: u64, cells: &mut [u16]) -> Tally {
    let tally = repeated(first, n, |panel, turn| {
        telegram(panel, address, turn % 2, cells)
    });
    tally.with_cells(cells)
}

// A position changes before each reading, so that each is a reading of another panel.
pub(crate) fn strips(first: Panel, n: u64, cells: &mut [u8]) -> Tally {
    let tally = repeated(first, n, |panel, turn| {
        let mut next = panel;
        next.seats[0].blind.place.position = position_at(turn);
        strip(next, cells)
    });
    tally.with_cells(cells)
}

pub(crate) fn position_at(turn: u64) -> u32 {
    (turn % 2) as u32
}
