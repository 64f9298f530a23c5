// Answers on their way out. Whoever reads them gets whole lines, also where the output takes no more.
use intake::fetch_all;
use std::fs::{OpenFile, OpenOptions};
use std::io::{Eprint, Print};
use std::rt::Files;
use std::str::from_utf8;
use std::{fs, io};
use texts::Sheet;

// Standard output as a file, and what the system tells of it: first a line with the place in it, "pos:", a tab, a number.
const OUTPUT: &str = "/proc/self/fd/1";

const TOLD: &str = "/proc/self/fdinfo/1";

// Bytes in which the line with the place stands whole.
const PLACE_LINE: usize = 64;

// Nothing is carried out any more: the input has ended or fails, or the output takes no more.
#[derive(Clone, Copy)]
pub(crate) struct Over;

// Writes the answers of this part of the sheet out.
pub(crate) fn send<R: Files + Print + Eprint>(
    rt: &R,
    sheet: &Sheet<'_>,
    from: usize,
    to: usize,
) -> Result<(), Over> {
    let end = to.min(sheet.bytes.len());
    let start = from.min(end);
    let taken = write_out(rt, &sheet.bytes[start..end]);
    if taken == end - start {
        return Ok(());
    }
    let _ = take_back(rt, taken as u64);
    let _ = rt.eprint("replay: the answers could not be written\n");
    Err(Over)
}

// How many of these bytes were taken: the first write that fails or takes nothing is the last. Each write tells how far it came.
fn write_out<R: Print>(rt: &R, bytes: &[u8]) -> usize {
    let mut taken = 0;
    while taken < bytes.len() {
        let more = rt.write_some(&bytes[taken..]).unwrap_or(0);
        if more == 0 {
            return taken;
        }
        taken += more;
    }
    taken
}

// A full disk may have taken half a line: the file is cut off where these answers began. What stands after them is
// somebody else's, and then nothing is cut off. What is no file is not opened again: a pipe would wait for a reader.
fn take_back<R: Files>(rt: &R, taken: u64) -> io::Result<()> {
    if !fs::metadata(rt, OUTPUT)?.is_file() {
        return Ok(());
    }
    let Some(here) = place(rt)? else {
        return Ok(());
    };
    let file = OpenOptions::new().write(true).open(rt, OUTPUT)?;
    if here < taken || file.metadata()?.len() != here {
        return Ok(());
    }
    file.set_len(here - taken)
}

// Where in its file standard output stands. What was told before a read failed counts too.
fn place<R: Files>(rt: &R) -> io::Result<Option<u64>> {
    let mut bytes = [0u8; PLACE_LINE];
    let mut told = fs::open(rt, TOLD)?;
    let have = fetch_all(&mut told, &mut bytes).unwrap_or_else(|failed| failed.have);
    Ok(place_in(&bytes[..have]))
}

fn place_in(told: &[u8]) -> Option<u64> {
    let line = from_utf8(told).ok()?.lines().next()?;
    line.strip_prefix("pos:\t")?.parse::<u64>().ok()
}
