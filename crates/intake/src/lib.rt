// Bytes of an input, read into a lent row. A read that failed is not the end of the input.
#![tactic(auto)]

ghost use Rattle.std.specs.Prelude.{◌<◌, ◌≤◌, length, MatchResult};

use std::io;
use std::io::Read;

// How many bytes there are where a read failed, and why it failed.
#[derive(Clone, Copy)]
pub struct Failed {
    pub have: usize,
    pub error: io::Error,
}

// Reads once, after the bytes that are kept, and hands back how many there are; 0 where none came, which std's `Read` tells by
// 0 too, and where the read failed.
pub fn fetch<R: Read>(file: &mut R, bytes: &mut [u8], kept: usize) -> Result<usize, Failed>
    ensures { MatchResult result (λ have. have ≤ length bytes.new) (λ failed. failed.«have» < length bytes.new) }
{
    if bytes.len() <= kept {
        return Ok(0);
    }
    match file.read(&mut bytes[kept..]) {
        Ok(0) => Ok(0),
        Ok(more) => Ok(kept + more),
        Err(error) => Err(Failed { have: 0, error }),
    }
}

// Reads to the end, or as many bytes as the row takes.
pub fn fetch_all<R: Read>(file: &mut R, bytes: &mut [u8]) -> Result<usize, Failed>
    ensures { MatchResult result (λ have. have ≤ length bytes.new) (λ failed. failed.«have» < length bytes.new) }
{
    let mut have = 0;
    // Each read tells how far it came.
    while have < bytes.len() {
        let next = fetch(file, bytes, have).map_err(|failed| Failed { have, ..failed })?;
        if next <= have {
            return Ok(have);
        }
        have = next;
    }
    Ok(have)
}
