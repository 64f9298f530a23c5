// One workload: a call, the case in which it is made, the panel's size and how many turns.
ghost use Rattle.std.specs.Prelude.{◌≤◌};

use crate::bus_turns::{strips, telegrams, time_steps};
use crate::calls::{Call, Case};
use crate::edit_turns::{exchanges, installs, inventories, removals, splicings, wirings, writes};
use crate::file_turns::{file_readings, fill, writings};
use crate::lookups::lookups;
use crate::panels::{SHARED, Size};
use crate::tally::Tally;
use fields::ROOM;
use panel::Panel;
use plant_writer::write;
use tags::CELLS;
use terminals::STRIP;

// A time step that is longer than any may be.
const TOO_LONG: u64 = 60_001;

#[derive(Clone, Copy)]
pub(crate) struct Workload {
    call: Call,
    case: Case,
    size: Size,
    turns: u64,
}

impl Workload {
    pub(crate) fn of(numbers: [u64; 5]) -> Workload {
        let [call, case, blinds, links, turns] = numbers;
        Workload {
            call: Call::from(call),
            case: Case::from(case),
            size: Size { blinds, links },
            turns,
        }
    }

    pub(crate) fn run(self) -> Tally {
        let panel = self.panel();
        let turns = self.turns;
        let tag = self.or_outside(0, 64);
        match self.call {
            Call::Time(dt) => self.run_steps(panel, dt),
            Call::Lone => self.run_telegrams(panel, self.size.alone()),
            Call::Shared => self.run_telegrams(panel, SHARED),
            Call::Strip => self.run_strips(panel),
            Call::Inventory => inventories(panel, turns),
            Call::Wiring(address) => wirings(panel, self.or_outside(address, 0), turns),
            Call::Splicing => splicings(panel, self.or_outside(0, 128), turns),
            Call::Install => installs(panel, tag, turns),
            Call::Remove => removals(panel, tag, turns),
            Call::Params => writes(panel, tag, turns),
            Call::Exchange => exchanges(panel, tag, turns),
            Call::Search => lookups(panel, self.size, turns),
            Call::Writing => self.run_writings(panel),
            Call::Reading => self.run_readings(panel),
            Call::LongReading => self.run_long_readings(panel),
            Call::Rubbish(even, odd) => self.run_rubbish(even, odd),
        }
    }

    fn panel(self) -> Panel {
        let panel = self.first_size().fitted(self.call.finds_running());
        match self.case {
            Case::BadBlinds => bad_blinds(panel),
            Case::BadLinks => bad_links(panel),
            _ => panel,
        }
    }

    // A call that adds a link starts with one less.
    fn first_size(self) -> Size {
        match self.call {
            Call::Wiring(_) => Size {
                links: self.size.links.wrapping_sub(1),
                ..self.size
            },
            _ => self.size,
        }
    }

    // One cell less than the call fills is lent, or one byte less than a file needs, where it is to be refused for that.
    fn lent(self, all: usize) -> usize
        ensures { result ≤ all }
    {
        if self.case == Case::WrongCells {
            all.saturating_sub(1)
        } else {
            all
        }
    }

    fn run_steps(self, panel: Panel, dt: u64) -> Tally {
        let mut cells = [0u16; CELLS];
        let lent = self.lent(CELLS);
        let asked = self.or_outside(dt, TOO_LONG);
        time_steps(panel, asked, self.turns, &mut cells[..lent])
    }

    fn run_telegrams(self, panel: Panel, address: u64) -> Tally {
        let mut cells = [0u16; CELLS];
        let lent = self.lent(CELLS);
        let asked = self.or_outside(address, 0);
        telegrams(panel, asked, self.turns, &mut cells[..lent])
    }

    fn run_strips(self, panel: Panel) -> Tally {
        let mut cells = [0u8; STRIP];
        let lent = self.lent(STRIP);
        strips(panel, self.turns, &mut cells[..lent])
    }

    fn run_writings(self, panel: Panel) -> Tally {
        let mut file = [0u8; ROOM];
        let lent = self.lent(ROOM);
        writings(panel, self.turns, &mut file[..lent])
    }

    fn run_readings(self, panel: Panel) -> Tally {
        let mut file = [0u8; ROOM];
        let length = write(&panel, &mut file).unwrap_or(0).min(ROOM);
        file_readings(&file[..length], self.turns)
    }

    fn run_long_readings(self, panel: Panel) -> Tally {
        let mut file = [0u8; ROOM];
        let _ = write(&panel, &mut file);
        file_readings(&file, self.turns)
    }

    fn run_rubbish(self, even: u8, odd: u8) -> Tally {
        let mut file = [0u8; ROOM];
        fill(&mut file, even, odd);
        file_readings(&file, self.turns)
    }

    fn or_outside(self, argument: u64, outside: u64) -> u64 {
        if self.case == Case::Outside {
            outside
        } else {
            argument
        }
    }
}

// The last blind stands where the first one does.
fn bad_blinds(panel: Panel) -> Panel {
    let mut next = panel;
    next.seats[63].terminal = panel.seats[0].terminal;
    next
}

// The last but one link of a full table stands twice.
fn bad_links(panel: Panel) -> Panel {
    let mut next = panel;
    next.table.words[510] = panel.table.words[509];
    next
}
