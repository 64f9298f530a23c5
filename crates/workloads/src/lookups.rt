// The search in the link table, made n times: for the links of an address of the table, each time of another one.
use crate::panels::Size;
use crate::tally::Tally;
use link::words::ADDRESS_STEP;
use panel::Panel;

pub(crate) fn lookups(panel: Panel, size: Size, n: u64) -> Tally {
    let table = panel.table;
    let mut tally = Tally::none();
    let mut place: u64 = 0;
    for _ in 0..n {
        place = further(place, size.links);
        let key = first_key(size.address_of(place));
        tally = tally.with(Ok(table.below(key) as u64));
    }
    tally.with_panel(panel)
}

// Half of the links and one more on: no link follows its neighbour, and of a power of two each has its turn.
fn further(place: u64, links: u64) -> u64 {
    if links == 0 {
        return 0;
    }
    place.wrapping_add(links / 2 + 1) % links
}

fn first_key(address: u64) -> u64 {
    address % ADDRESS_STEP * ADDRESS_STEP
}
