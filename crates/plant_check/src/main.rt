// Is this a plant file? Its bytes come on standard input, and one line goes to standard output. The verdict is the crate
// verdicts'; here bytes are only fetched and handed on.
#![tactic(auto)]

use intake::fetch_all;
use std::io::{Eprint, Print};
use texts::Sheet;
use verdicts::put_verdict;

// More bytes than a file may have.
const FILE: usize = 65_536;

// The size of the row in which the answer is written.
const LINE: usize = 4_096;

fn main(rt: HostRuntime) {
    let mut file = [0u8; FILE];
    let mut out = [0u8; LINE];
    let Ok(have) = fetch_all(&mut rt.stdin(), &mut file) else {
        let _ = rt.eprint("plant_check: the input could not be read\n");
        return;
    };
    let mut sheet = Sheet {
        bytes: &mut out,
        at: 0,
    };
    put_verdict(&mut sheet, &file[..have]);
    let end = sheet.at.min(sheet.bytes.len());
    if rt.write_all(&sheet.bytes[..end]).is_err() {
        let _ = rt.eprint("plant_check: the answer could not be written\n");
    }
}
