// The panel that the commands start with: empty, or that of the plant file that the program was started with.
use fields::ROOM;
use intake::fetch_all;
use panel::Panel;
use plant_reader::{BadLine, read};
use std::env::FillError;
use std::io::Read;
use std::rt::{Env, Files};
use std::str::from_utf8;
use std::{fmt, fs};

// The longest name of a file.
const NAME: usize = 4_096;

// More bytes than a file may have.
const FILE: usize = 65_536;

// Why there is no panel to begin with.
#[derive(Clone, Copy)]
pub(crate) enum StartError {
    TwoFiles,
    // There is no file of the name, or it cannot be read.
    Unread,
    TooLong,
    // The number of the first bad line.
    Bad(u64),
}

impl fmt::Display for StartError {
    fn fmt<W: fmt::Write>(&self, f: &mut fmt::Formatter<W>) -> fmt::Result {
        match self {
            StartError::TwoFiles => write!(f, "more than one plant file"),
            StartError::Unread => write!(f, "the plant file could not be read"),
            StartError::TooLong => write!(f, "the plant file is too long"),
            StartError::Bad(line) => write!(f, "the plant file is bad in line {line}"),
        }
    }
}

impl From<BadLine> for StartError {
    fn from(bad: BadLine) -> StartError {
        StartError::Bad(bad.0)
    }
}

pub(crate) fn first_panel<R: Env + Files>(rt: &R) -> Result<Panel, StartError> {
    if !is_given(rt, 1) {
        return Ok(Panel::empty());
    }
    if is_given(rt, 2) {
        return Err(StartError::TwoFiles);
    }
    let mut name = [0u8; NAME];
    match rt.arg(1, &mut name) {
        Ok(length) => from_named(rt, &name[..length]),
        Err(_) => Err(StartError::Unread),
    }
}

// Whether there is an argument of this place; the program's own name has place 0. workloads asks alike: what a runtime is
// started with is in no contract, so a function of a library would promise nothing.
fn is_given<R: Env>(rt: &R, place: usize) -> bool {
    let mut none = [0u8; 0];
    !matches!(rt.arg(place, &mut none), Err(FillError::NotPresent))
}

// The panel of the file of this name; a name that is no UTF-8 names no file that could be opened.
fn from_named<R: Files>(rt: &R, name: &[u8]) -> Result<Panel, StartError> {
    let path = from_utf8(name).map_err(|_| StartError::Unread)?;
    let mut file = fs::open(rt, path).map_err(|_| StartError::Unread)?;
    from_file(&mut file)
}

// The panel of an open file. More bytes than a file may have are enough to know that it is too long.
fn from_file<F: Read>(file: &mut F) -> Result<Panel, StartError> {
    let mut bytes = [0u8; FILE];
    let have = fetch_all(file, &mut bytes).map_err(|_| StartError::Unread)?;
    if ROOM < have {
        return Err(StartError::TooLong);
    }
    let done = read(&bytes[..have]);
    done.outcome?;
    Ok(done.panel)
}
