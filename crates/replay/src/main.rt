// A panel on the bench: commands from standard input, one a line, each carried out on one panel and answered on standard
// output by one line. The work is in the crate replies; here bytes are only fetched and handed on.
#![tactic(auto)]

mod output;
mod start;

use commands::lines::LONGEST;
use intake::fetch;
use output::{Over, send};
use panel::Panel;
use replies::answer_line;
use rows::{line_end, move_to_front};
use start::first_panel;
use std::io::{Eprint, Print, Read};
use std::rt::Files;
use texts::Sheet;

// The size of the row in which lines are read, and of the sheet on which their answers are written.
const BUFFER: usize = 65_536;

// An unfinished line is kept up to the first byte that makes it too long: what follows cannot mend it.
const MOST_KEPT: usize = LONGEST + 1;

// When so much is written the sheet is sent off: a pipe takes less than this whole or not at all, and the longest answer,
// of 64 blinds and 512 links, still fits after it.
const FULL: usize = 4_096;

#[derive(Clone, Copy)]
struct Bench {
    panel: Panel,
    // How many lines were read.
    lines: u64,
    // How many bytes of an unfinished line stand at the front of the input.
    kept: usize,
}

fn main(rt: HostRuntime) {
    let mut input = [0u8; BUFFER];
    let mut out = [0u8; BUFFER];
    let mut sheet = Sheet {
        bytes: &mut out,
        at: 0,
    };
    match first_panel(&rt) {
        Ok(panel) => serve(&rt, &mut rt.stdin(), panel, &mut input, &mut sheet),
        Err(error) => {
            let _ = eprint!(rt; "replay: {error}\n");
        }
    }
}

// A proved loop has to end, and nothing says that the input does: the turns are more than any run uses up.
fn serve<R: Files + Print + Eprint, I: Read>(
    rt: &R,
    source: &mut I,
    panel: Panel,
    input: &mut [u8],
    sheet: &mut Sheet<'_>,
) {
    let mut bench = Bench {
        panel,
        lines: 0,
        kept: 0,
    };
    for _ in 0..u64::MAX {
        let Ok(next) = hear(rt, source, bench, input, sheet) else {
            return;
        };
        bench = next;
    }
}

// Whoever reads the answers waits for them, so the sheet is sent off before more input is asked for.
fn hear<R: Files + Print + Eprint, I: Read>(
    rt: &R,
    source: &mut I,
    bench: Bench,
    input: &mut [u8],
    sheet: &mut Sheet<'_>,
) -> Result<Bench, Over> {
    let Ok(have) = fetch(source, input, bench.kept) else {
        let _ = rt.eprint("replay: the input could not be read\n");
        return Err(Over);
    };
    if have == 0 {
        finish(rt, bench, input, sheet)?;
        return Err(Over);
    }
    let next = answer_lines(rt, bench, &input[..have], sheet)?;
    let open = have.saturating_sub(next.kept);
    let kept = move_to_front(input, next.kept, open.min(MOST_KEPT));
    send_off(rt, sheet)?;
    Ok(Bench { kept, ..next })
}

// Every line that has ended; what is kept then begins where the last of them ended, which an iterator over lines would not tell.
fn answer_lines<R: Files + Print + Eprint>(
    rt: &R,
    bench: Bench,
    input: &[u8],
    sheet: &mut Sheet<'_>,
) -> Result<Bench, Over> {
    let mut next = bench;
    let mut start = 0;
    let mut end = line_end(input, 0);
    while end < input.len() {
        next = answer(rt, next, &input[start..end], sheet)?;
        start = end + 1;
        end = line_end(input, start);
    }
    Ok(Bench {
        kept: start,
        ..next
    })
}

// Nothing is carried out any more where an answer did not go through. The answer that fills the sheet goes off after
// those before it, so that only a long line makes a large write.
fn answer<R: Files + Print + Eprint>(
    rt: &R,
    bench: Bench,
    line: &[u8],
    sheet: &mut Sheet<'_>,
) -> Result<Bench, Over> {
    let lines = bench.lines.saturating_add(1);
    let before = sheet.at;
    let panel = answer_line(bench.panel, lines, line, sheet);
    let after = sheet.at;
    if FULL <= after {
        send(rt, sheet, 0, before)?;
        send(rt, sheet, before, after)?;
        sheet.at = 0;
    }
    Ok(Bench {
        panel,
        lines,
        ..bench
    })
}

// A last line without a line feed is a line too; where none is kept, the line is empty and passed over.
fn finish<R: Files + Print + Eprint>(
    rt: &R,
    bench: Bench,
    input: &[u8],
    sheet: &mut Sheet<'_>,
) -> Result<(), Over> {
    let kept = bench.kept.min(input.len());
    answer(rt, bench, &input[..kept], sheet)?;
    send_off(rt, sheet)
}

// What is on the sheet goes off.
fn send_off<R: Files + Print + Eprint>(rt: &R, sheet: &mut Sheet<'_>) -> Result<(), Over> {
    let end = sheet.at;
    send(rt, sheet, 0, end)?;
    sheet.at = 0;
    Ok(())
}
