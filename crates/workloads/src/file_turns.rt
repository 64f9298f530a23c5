// Plant files, each written or read n times. Neither `write` nor `read` hands on a panel: made into a call for `repeated`, each
// would cost a copy that only the measurement needs.
use crate::bus_turns::position_at;
use crate::tally::Tally;
use panel::Panel;
use plant_reader::{BadLine, read};
use plant_writer::write;

const LINE_FEED: u8 = 10;

// A position changes before each writing, so that each is of another panel.
pub(crate) fn writings(first: Panel, n: u64, file: &mut [u8]) -> Tally {
    let mut panel = first;
    let mut tally = Tally::none();
    for turn in 0..n {
        panel.seats[0].blind.place.position = position_at(turn);
        let written = write(&panel, file);
        tally = tally.with(written.map(|length| length as u64));
    }
    tally.with_panel(panel).with_cells(file)
}

// The number of the bad line is counted, and the panel that was read last.
pub(crate) fn file_readings(file: &[u8], n: u64) -> Tally {
    let mut panel = Panel::empty();
    let mut tally = Tally::none();
    for _ in 0..n {
        let done = read(file);
        panel = done.panel;
        tally = tally.with(Ok(bad_line(done.outcome)));
    }
    tally.with_panel(panel)
}

// 0 where none is bad.
fn bad_line(outcome: Result<(), BadLine>) -> u64 {
    match outcome {
        Ok(_) => 0,
        Err(BadLine(line)) => line,
    }
}

// Rubbish: two bytes in turn up to the end, which is a line feed.
pub(crate) fn fill(file: &mut [u8], even: u8, odd: u8) {
    for (i, byte) in file.iter_mut().enumerate() {
        *byte = if i % 2 == 0 { even } else { odd };
    }
    if let Some(last) = file.last_mut() {
        *last = LINE_FEED;
    }
}
