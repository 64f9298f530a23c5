// The edits and the inventory, each made n times. Calls that undo each other stand in one turn.
use crate::bus_turns::position_at;
use crate::course::{repeated, settled, undone};
use crate::panels::{FULL_RUN, asked};
use crate::tally::Tally;
use answers::Answered;
use installs::install;
use panel::Panel;
use readings::inventory::inventory;
use removals::remove_blind;
use splices::{splice_in, splice_out};
use wiring::{add_link, remove_link};
use writes::write_params;

// How many terminals come and go.
const SPLICED: u64 = 1;

pub(crate) fn installs(first: Panel, tag: u64, n: u64) -> Tally {
    let params = asked();
    repeated(first, n, |panel, _| install(panel, tag, tag, params))
}

pub(crate) fn removals(first: Panel, tag: u64, n: u64) -> Tally {
    repeated(first, n, |panel, _| remove_blind(panel, tag))
}

// Blind 0 gets back what it was after each call, so that the next one finds it not busy.
pub(crate) fn writes(first: Panel, tag: u64, n: u64) -> Tally {
    let params = asked();
    let rested = first.seats[0].blind;
    settled(
        first,
        n,
        |panel, _| write_params(panel, tag, params),
        |panel| panel.seats[0].blind = rested,
    )
}

// A blind is removed and installed again, and blind 0 gets back what it was. Its links go with the first removal.
pub(crate) fn exchanges(first: Panel, tag: u64, n: u64) -> Tally {
    let params = asked();
    let rested = first.seats[0].blind;
    undone(
        first,
        n,
        |panel| remove_blind(panel, tag),
        |panel| {
            let mut done = install(panel, tag, tag, params);
            done.state.seats[0].blind = rested;
            done
        },
    )
}

// A link of an address is added and removed.
pub(crate) fn wirings(first: Panel, address: u64, n: u64) -> Tally {
    undone(
        first,
        n,
        |panel| add_link(panel, address, 0, FULL_RUN),
        |panel| remove_link(panel, address, 0, FULL_RUN),
    )
}

// A terminal is spliced in and out.
pub(crate) fn splicings(first: Panel, t: u64, n: u64) -> Tally {
    undone(
        first,
        n,
        |panel| splice_in(panel, t, SPLICED),
        |panel| splice_out(panel, t, SPLICED),
    )
}

// A position changes before each inventory, so that each is one of another panel.
pub(crate) fn inventories(first: Panel, n: u64) -> Tally {
    repeated(first, n, |panel, turn| {
        let mut next = panel;
        next.seats[0].blind.place.position = position_at(turn);
        let outcome = inventory(&next).map(|stock| u64::from(stock.blinds));
        Answered {
            outcome,
            state: next,
        }
    })
}
