// The panels that the workloads start from, built by the panel's own calls: so many blinds, at rest or all of them
// running, and so many links, of which some share one address in the middle of the table.
use installs::install;
use kinds::Kind;
use panel::Panel;
use params::Asked;
use tags::CELLS;
use telegrams::telegram;
use time_steps::time_step;
use wiring::{add_link, remove_link};

// The kind MUD, a full run: every link is of it.
pub(crate) const FULL_RUN: u64 = Kind::Mud as u64;

// The address below all others, at which links come and go.
pub(crate) const FRONT: u64 = 1;

// The address above all others, at which they come and go too.
pub(crate) const END: u64 = 65535;

// The address of the links that one telegram reaches together.
pub(crate) const SHARED: u64 = 1000;

// The first addresses of the links that stand alone, before and after the shared ones.
const BEFORE: u64 = 100;

const AFTER: u64 = 2000;

// The rest time of a fresh blind, after which an order starts at once.
const REST: u64 = 500;

// How many blinds and links a panel has.
#[derive(Clone, Copy)]
pub(crate) struct Size {
    pub(crate) blinds: u64,
    pub(crate) links: u64,
}

impl Size {
    // A panel of this size, all its blinds at rest or all of them running down.
    pub(crate) fn fitted(self, run: bool) -> Panel {
        let rested = rest(with_blinds(self.blinds));
        if run {
            self.with_links(started(rested, self.blinds))
        } else {
            self.with_links(rested)
        }
    }

    fn with_links(self, panel: Panel) -> Panel {
        (0..self.links).fold(panel, |next, place| {
            add_link(next, self.address_of(place), self.tag_of(place), FULL_RUN).state
        })
    }

    // The address of a link that stands alone, right before the shared ones.
    pub(crate) fn alone(self) -> u64 {
        BEFORE.wrapping_add(self.lone_before().saturating_sub(1))
    }

    // A blind each has one of the shared links, as far as half of the table goes.
    fn shared(self) -> u64 {
        self.blinds.min(self.links / 2)
    }

    // Half of the links that stand alone come before the shared ones.
    fn lone_before(self) -> u64 {
        self.links.saturating_sub(self.shared()) / 2
    }

    pub(crate) fn address_of(self, place: u64) -> u64 {
        let together = self.shared();
        if place < together {
            return SHARED;
        }
        let lone = place - together;
        if lone < self.lone_before() {
            BEFORE.wrapping_add(lone)
        } else {
            AFTER.wrapping_add(lone)
        }
    }

    fn tag_of(self, place: u64) -> u64 {
        if self.blinds == 0 {
            0
        } else {
            place % self.blinds
        }
    }
}

// The longest full run, so that blinds run for many calls, and the defaults else.
pub(crate) fn asked() -> Asked {
    let set = Asked::default_set();
    Asked {
        mudt: 600_000,
        ..set
    }
}

fn with_blinds(blinds: u64) -> Panel {
    (0..blinds).fold(Panel::empty(), |panel, tag| {
        install(panel, tag, tag, asked()).state
    })
}

fn rest(panel: Panel) -> Panel {
    let mut cells = [0u16; CELLS];
    time_step(panel, REST, &mut cells).state
}

fn started(panel: Panel, blinds: u64) -> Panel {
    (0..blinds).fold(panel, start)
}

// A link that stays only for the telegram that starts the blind.
fn start(panel: Panel, tag: u64) -> Panel {
    let mut cells = [0u16; CELLS];
    let linked = add_link(panel, FRONT, tag, FULL_RUN);
    let told = telegram(linked.state, FRONT, 1, &mut cells);
    remove_link(told.state, FRONT, tag, FULL_RUN).state
}
