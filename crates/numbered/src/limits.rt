// Document 01, "Cases by number": R1 to R3, run by the program only: how many links, how long a time step, and a command
// that is taken back in the same telegram.
ghost use Rattle.texts.specs.Lent.{Puts};
ghost use Rattle.numbered.specs.Limits.{link_line, link_lines};

use crate::{BUFFER, judge, put_fresh};
use decimals::put_number;
use std::io;
use std::io::Write;
use texts::Sheet;

pub(crate) const LIMITS: [u8; 790] = *b"@R2
# dt 60,000 answers 0 and 60,001 answers 1.
time 60000 = 0 0
time 60001 = 1 0 -
@R3
# MUD and STOP on one address, blind not busy: no report, rest time RPT. STOP takes either value.
link 7 5 4 = 0 8
link 7 5 5 = 0 8
time 500 = 0 0
tel 7 0 = 0 2
show = panel | blind 5 9 60000 200 500 1 1 3 pos=0 valid=0 alarms=--- forced=- last=up rest=500 run=- wait=- \
    | link 7 5 4 | link 7 5 5 | link 100 5 0 | link 101 5 1 | link 102 5 2 | link 103 5 3 | link 104 5 4 | link 105 5 5 | link 106 5 6 | link 107 5 7
time 500 = 0 0
tel 7 1 = 0 2
show = panel | blind 5 9 60000 200 500 1 1 3 pos=0 valid=0 alarms=--- forced=- last=down rest=500 run=- wait=- \
    | link 7 5 4 | link 7 5 5 | link 100 5 0 | link 101 5 1 | link 102 5 2 | link 103 5 3 | link 104 5 4 | link 105 5 5 | link 106 5 6 | link 107 5 7
";

// R1 after links 9 to 511. The last digits of an address say which link it is.
const FULL_TABLE: [u8; 185] = *b"
# Link 512 is accepted, 513 answers 7, and after a removal one more is accepted.
link 1512 5 4 = 0 0
link 1513 5 4 = 7 0
unlink 100 5 0 = 0 511
link 1513 5 4 = 0 0
link 1514 5 4 = 7 0
";

pub(crate) fn full_table<O: Write>(out: &mut O, install: &[u8]) -> io::Result<()> {
    let mut row = [0u8; BUFFER];
    let mut script = Sheet {
        bytes: &mut row,
        at: 0,
    };
    put_fresh(&mut script, install);
    put_links(&mut script);
    script.put_text(&FULL_TABLE);
    judge(out, b"R1", &script)
}

// The script of links 9 to 511; eight are there already.
#[tactic(auto, using(texts::proofs::Sheets::each_none, texts::proofs::Sheets::each_more, texts::proofs::Sheets::each_all))]
fn put_links(script: &mut Sheet<'_>)
    ensures { Puts link_lines script.old script.new }
{
    for place in 0..503 {
        put_link(script, 1009 + place);
    }
}

fn put_link(script: &mut Sheet<'_>, address: u64)
    ensures { Puts (link_line address) script.old script.new }
{
    script.put_text(b"link ");
    put_number(script, address);
    script.put_text(b" 5 4 = 0 0");
    script.put(b'\n');
}
