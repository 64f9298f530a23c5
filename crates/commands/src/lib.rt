// The command language of the bench, one command a line: a line is read as a command, as something to pass over, or as a
// mistake. Nothing is carried out here.
#![tactic(auto)]

pub mod file_line;
pub mod lines;

use params::Asked;

// An edit of the panel, with its numbers as they stand in the line, of any size.
#[derive(Clone, Copy)]
pub enum Edit {
    Install(u64, u64, Asked),
    Remove(u64),
    Params(u64, Asked),
    Link(u64, u64, u64),
    Unlink(u64, u64, u64),
    In(u64, u64),
    Out(u64, u64),
}

// What a line asks for.
#[derive(Clone, Copy)]
pub enum Command {
    New,
    Show,
    Strip,
    Inv,
    Edit(Edit),
    Tel(u64, u64),
    Time(u64),
    Percent(u64),
    Why(u64, u64, u64),
    Write(u64),
}

// What can be wrong with a line.
#[derive(Clone, Copy)]
pub enum Fault {
    TooLong,
    UnknownCommand,
    WrongCount,
    NotANumber,
    NotAFile,
}

// What a line means. A file is carried out where the line is at hand: it is as long as the line.
#[derive(Clone, Copy)]
pub enum Meaning {
    Silent,
    Call(Command),
    File,
    Wrong(Fault),
}
