// What a workload tells: the last answer, and a sum over all answers, counts, cells and the panel at the end, so that
// no call can be left out unnoticed.
use answers::{Refusal, number};
use panel::{Panel, Seat};
use tags::CELLS;

#[derive(Clone, Copy)]
pub(crate) struct Tally {
    // A number, as it is printed.
    pub(crate) answer: u8,
    pub(crate) sum: u64,
}

impl Tally {
    pub(crate) fn none() -> Tally {
        Tally { answer: 0, sum: 0 }
    }

    // One more answer with its count.
    pub(crate) fn with(self, outcome: Result<u64, Refusal>) -> Tally {
        let answer = number(outcome);
        let sum = self.sum.wrapping_add(u64::from(answer));
        Tally {
            answer,
            sum: sum.wrapping_add(outcome.unwrap_or(0)),
        }
    }

    // The panel as the last call left it.
    pub(crate) fn with_panel(self, panel: Panel) -> Tally {
        let links = self.sum.wrapping_add(panel.table.count as u64);
        let sum = (0..CELLS)
            .filter_map(|tag| panel.seat(tag))
            .fold(links, |sum, seat| sum.wrapping_add(place(seat)));
        Tally { sum, ..self }
    }

    // What the calls left in the cells that they were lent, or in the file.
    pub(crate) fn with_cells<T: Copy>(self, cells: &[T]) -> Tally
    where
        u64: From<T>,
    {
        let sum = cells
            .iter()
            .fold(self.sum, |sum, cell| sum.wrapping_add(u64::from(*cell)));
        Tally { sum, ..self }
    }
}

fn place(seat: Seat) -> u64 {
    u64::from(seat.terminal).wrapping_add(u64::from(seat.blind.place.position))
}
