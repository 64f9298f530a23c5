// The panel's calls, made so often that they can be timed: bench/run runs this beside bench/peer.c, which does the
// same and must write the same lines. Arguments: call, case, blinds, links, turns, each a number. Without them each
// call makes two turns in each case.
#![tactic(auto)]

mod bus_turns;
mod calls;
mod course;
mod edit_turns;
mod file_turns;
mod lines;
mod lookups;
mod panels;
mod tally;
mod workload;

use lines::write_line;
use std::env::FillError;
use std::io::Print;
use std::rt::Env;
use workload::Workload;

// How many calls there are, and how many cases.
const CALLS: u64 = 22;

const CASES: u64 = 5;

// What is lent for the text of an argument.
const DIGITS: usize = 20;

// A number that ten times as much still fits.
const MOST: u64 = 1_000_000_000_000_000_000;

fn main(rt: HostRuntime) {
    if !is_given(&rt, 5) {
        run_all(&rt);
        return;
    }
    run_one(&rt, [1, 2, 3, 4, 5].map(|place| argument(&rt, place)));
}

fn run_all<R: Print>(rt: &R) {
    for call in 0..CALLS {
        run_cases(rt, call);
    }
}

fn run_cases<R: Print>(rt: &R, call: u64) {
    for case in 0..CASES {
        run_one(rt, [call, case, 64, 512, 2]);
    }
}

fn run_one<R: Print>(rt: &R, numbers: [u64; 5]) {
    write_line(rt, numbers, Workload::of(numbers).run());
}

// Whether there is an argument of this place; the program's own name has place 0. replay has the same function, and says why it is not shared.
fn is_given<R: Env>(rt: &R, i: usize) -> bool {
    let mut none = [0u8; 0];
    !matches!(rt.arg(i, &mut none), Err(FillError::NotPresent))
}

// One that is missing or has more digits than are lent is 0.
fn argument<R: Env>(rt: &R, i: usize) -> u64 {
    let mut text = [0u8; DIGITS];
    let length = rt.arg(i, &mut text).unwrap_or(0);
    number(&text[..length])
}

fn number(text: &[u8]) -> u64 {
    text.iter()
        .fold(0, |value, digit| with_digit(value, *digit))
}

fn with_digit(value: u64, digit: u8) -> u64 {
    if digit < b'0' || MOST < value {
        return value;
    }
    value * 10 + u64::from(digit - b'0')
}
