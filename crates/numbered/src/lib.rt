// Document 01, "Cases by number": W1 to W12 and R1 to R3 as scripts, and a line for each. What a case starts from ("running
// up", "not busy") is brought about by commands and looked at before the case goes on. Kind k has the address 100 + k.
#![tactic(auto)]

mod limits;

use crate::limits::{LIMITS, full_table};
use rows::line_end;
use scripts::holds;
use std::io;
use std::io::Write;
use texts::Sheet;

// A case begins with this mark and its name; its script goes on to the next mark.
const MARK: u8 = b'@';

// The size of the row in which a script is written, and of that for its answers.
pub(crate) const BUFFER: usize = 65_536;

const WORKED: [u8; 5059] = *b"@W1
# MUD 0, then 499 ms: off. 1 ms more: up.
tel 104 0 = 0 1
time 499 = 0 0
strip = 0 0
time 1 = 0 0
strip = 0 0 9=1
@W2
# From W1, 59,999 ms: up. 1 ms more: off, report 256.
tel 104 0 = 0 1
time 500 = 0 0
strip = 0 0 9=1
time 59999 = 0 0
strip = 0 0 9=1
time 1 = 0 0 5=256
strip = 0 0
@W3
# Then SAPBP 128 at once: off; 500 ms: down; 30,117 ms: off, report 384, as K2 has it.
tel 104 0 = 0 1
time 500 = 0 0
time 60000 = 0 0 5=256
tel 107 128 = 0 1
strip = 0 0
time 500 = 0 0
strip = 0 0 9=2
time 30116 = 0 0
strip = 0 0 9=2
time 1 = 0 0 5=384
strip = 0 0
@W4
# Running up, MUD 1: off; 499 ms: off; 1 ms: down.
tel 104 0 = 0 1
time 500 = 0 0
strip = 0 0 9=1
tel 104 1 = 0 1
strip = 0 0
time 499 = 0 0
strip = 0 0
time 1 = 0 0
strip = 0 0 9=2
@W5
# Full run down, SSUD 0: off, nothing waits.
tel 104 1 = 0 1
time 500 = 0 0
strip = 0 0 9=2
tel 106 0 = 0 1 5=0
strip = 0 0
show = panel | blind 5 9 60000 200 500 1 1 3 pos=0 valid=0 alarms=--- forced=- last=down rest=500 run=- wait=- \
    | link 100 5 0 | link 101 5 1 | link 102 5 2 | link 103 5 3 | link 104 5 4 | link 105 5 5 | link 106 5 6 | link 107 5 7
@W6
# Last direction up, rest time 0, SSUD 0: up; 200 ms: off.
tel 104 0 = 0 1
time 500 = 0 0
tel 105 0 = 0 1 5=0
time 500 = 0 0
show = panel | blind 5 9 60000 200 500 1 1 3 pos=0 valid=0 alarms=--- forced=- last=up rest=0 run=- wait=- \
    | link 100 5 0 | link 101 5 1 | link 102 5 2 | link 103 5 3 | link 104 5 4 | link 105 5 5 | link 106 5 6 | link 107 5 7
tel 106 0 = 0 1
strip = 0 0 9=1
time 199 = 0 0
strip = 0 0 9=1
time 1 = 0 0 5=0
strip = 0 0
@W7
# Fresh, SAPBP 100: answer 0, still at rest: nothing starts when the pause is over.
tel 107 100 = 0 1
strip = 0 0
time 60000 = 0 0
strip = 0 0
@W8
# Fresh, WA 1, MUD 1: an up run waits. WA 0: at rest, report 0.
tel 100 1 = 0 1
tel 104 1 = 0 1
show = panel | blind 5 9 60000 200 500 1 1 3 pos=0 valid=0 alarms=w-- forced=- last=- rest=500 run=- wait=up:full:60000 \
    | link 100 5 0 | link 101 5 1 | link 102 5 2 | link 103 5 3 | link 104 5 4 | link 105 5 5 | link 106 5 6 | link 107 5 7
tel 100 0 = 0 1 5=0
show = panel | blind 5 9 60000 200 500 1 1 3 pos=0 valid=0 alarms=--- forced=- last=- rest=500 run=- wait=- \
    | link 100 5 0 | link 101 5 1 | link 102 5 2 | link 103 5 3 | link 104 5 4 | link 105 5 5 | link 106 5 6 | link 107 5 7
@W9
# As K5 has it, FA 1 gives Hold: the flag is set, the motor off, no report, and every other field as it was. A MUD after it
# is dropped: nothing waits, and nothing starts when the pause is over.
show = panel | blind 5 9 60000 200 500 1 1 3 pos=0 valid=0 alarms=--- forced=- last=- rest=500 run=- wait=- \
    | link 100 5 0 | link 101 5 1 | link 102 5 2 | link 103 5 3 | link 104 5 4 | link 105 5 5 | link 106 5 6 | link 107 5 7
tel 102 1 = 0 1
strip = 0 0
show = panel | blind 5 9 60000 200 500 1 1 3 pos=0 valid=0 alarms=--f forced=- last=- rest=500 run=- wait=- \
    | link 100 5 0 | link 101 5 1 | link 102 5 2 | link 103 5 3 | link 104 5 4 | link 105 5 5 | link 106 5 6 | link 107 5 7
tel 104 1 = 0 1
show = panel | blind 5 9 60000 200 500 1 1 3 pos=0 valid=0 alarms=--f forced=- last=- rest=500 run=- wait=- \
    | link 100 5 0 | link 101 5 1 | link 102 5 2 | link 103 5 3 | link 104 5 4 | link 105 5 5 | link 106 5 6 | link 107 5 7
time 500 = 0 0
strip = 0 0
@W10
# Running down under FO 3, WA 1: off, up waits. WA 0 in the same instant: down, full length. The run is a second old, so
# that a full length is not what was left of it.
tel 103 3 = 0 1
time 500 = 0 0
time 1000 = 0 0
strip = 0 0 9=2
tel 100 1 = 0 1
strip = 0 0
show = panel | blind 5 9 60000 200 500 1 1 3 pos=1000 valid=0 alarms=w-- forced=down last=down rest=500 run=- wait=up:full:60000 \
    | link 100 5 0 | link 101 5 1 | link 102 5 2 | link 103 5 3 | link 104 5 4 | link 105 5 5 | link 106 5 6 | link 107 5 7
tel 100 0 = 0 1
strip = 0 0 9=2
show = panel | blind 5 9 60000 200 500 1 1 3 pos=1000 valid=0 alarms=--- forced=down last=down rest=0 run=down:full:60000 wait=- \
    | link 100 5 0 | link 101 5 1 | link 102 5 2 | link 103 5 3 | link 104 5 4 | link 105 5 5 | link 106 5 6 | link 107 5 7
@W11
# Not busy, splice in 2 at 9: terminal 11; a blind at 8 stays.
install 6 8 = 0 0
time 500 = 0 0
show = panel | blind 5 9 60000 200 500 1 1 3 pos=0 valid=0 alarms=--- forced=- last=- rest=0 run=- wait=- \
    | blind 6 8 60000 200 500 1 1 3 pos=0 valid=0 alarms=--- forced=- last=- rest=0 run=- wait=- \
    | link 100 5 0 | link 101 5 1 | link 102 5 2 | link 103 5 3 | link 104 5 4 | link 105 5 5 | link 106 5 6 | link 107 5 7
in 9 2 = 0 0
show = panel | blind 5 11 60000 200 500 1 1 3 pos=0 valid=0 alarms=--- forced=- last=- rest=0 run=- wait=- \
    | blind 6 8 60000 200 500 1 1 3 pos=0 valid=0 alarms=--- forced=- last=- rest=0 run=- wait=- \
    | link 100 5 0 | link 101 5 1 | link 102 5 2 | link 103 5 3 | link 104 5 4 | link 105 5 5 | link 106 5 6 | link 107 5 7
@W12
# A fresh blind, still in its first pause: 119 is answered 3. Not busy, splice in at 9: 119 is answered 9, 120 is
# answered 1, and 118 gives terminal 127.
in 9 119 = 3 0
time 500 = 0 0
in 9 119 = 9 0
in 9 120 = 1 0
in 9 118 = 0 0
tel 104 0 = 0 1
strip = 0 0 127=1
";

// Blind 5 has each kind on its own address.
const FRESH: [u8; 153] = *b"
link 100 5 0 = 0 0
link 101 5 1 = 0 0
link 102 5 2 = 0 0
link 103 5 3 = 0 0
link 104 5 4 = 0 0
link 105 5 5 = 0 0
link 106 5 6 = 0 0
link 107 5 7 = 0 0
";

// Runs all cases. The blind of the cases is installed by this line, so that a wrong build can be tried too. Where a line
// of the cases cannot be written, that is said in these words.
pub fn write<O: Write, E: Write>(out: &mut O, err: &mut E, install: &[u8], failure: &[u8]) {
    if run_all(out, install).is_err() {
        let _ = err.write_all(failure);
    }
}

// The first line that does not go through is the last.
fn run_all<O: Write>(out: &mut O, install: &[u8]) -> io::Result<()> {
    run(out, &WORKED, install)?;
    full_table(out, install)?;
    run(out, &LIMITS, install)
}

// The cases of a text one after the other.
fn run<O: Write>(out: &mut O, cases: &[u8], install: &[u8]) -> io::Result<()> {
    for text in cases.split(|byte| *byte == MARK).skip(1) {
        case(out, text, install)?;
    }
    Ok(())
}

// A case: what it starts from and its own script are written into a row, and then carried out.
fn case<O: Write>(out: &mut O, text: &[u8], install: &[u8]) -> io::Result<()> {
    let mut row = [0u8; BUFFER];
    let mut script = Sheet {
        bytes: &mut row,
        at: 0,
    };
    let (name, lines) = text.split_at(line_end(text, 0));
    put_fresh(&mut script, install);
    script.put_text(lines);
    judge(out, name, &script)
}

// The blind as it is installed, with its links.
pub(crate) fn put_fresh(script: &mut Sheet<'_>, install: &[u8]) {
    script.put_text(install);
    script.put_text(&FRESH);
}

// The line of a case with this script.
pub(crate) fn judge<O: Write>(out: &mut O, name: &[u8], script: &Sheet<'_>) -> io::Result<()> {
    let mut answers = [0u8; BUFFER];
    let length = script.at.min(script.bytes.len());
    let same = holds(&script.bytes[..length], &mut answers);
    out.write_all(name)?;
    if same {
        out.write_all(b"\tsame\n")
    } else {
        out.write_all(b"\tdiffers\n")
    }
}
