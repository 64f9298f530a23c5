// Document 02, K3, the reader: the panel of a plant file, any bytes of any length, line by line. A line that is bad beside
// the lines before ends it, and then nothing is left of what was read.
#![tactic(auto)]

mod drafts;
mod first_line;

ghost use Rattle.std.specs.Prelude.{◌≡◌, ◌<◌, IfErr};
ghost use Rattle.plant.specs.Read.{bad_in, file_read};
ghost use Rattle.plant_reader.specs.Reader.{read_of};

use crate::drafts::Draft;
use crate::first_line::version_of;
use panel::Panel;
use rows::line_end;

// The number of the first bad line; lines are counted from 1.
#[derive(Clone, Copy)]
pub struct BadLine(pub u64);

// The first bad line and an empty panel; or the panel of the file.
#[derive(Clone, Copy)]
pub struct FileRead {
    pub outcome: Result<(), BadLine>,
    pub panel: Panel,
}

#[tactic(auto, using(crate::proofs::Reading::first_unfed, crate::proofs::Reading::first_bad, crate::proofs::Reading::first_good, crate::proofs::Reading::file_end, crate::proofs::Reading::line_refused))]
pub fn read(file: &[u8]) -> FileRead
    ensures value { read_of result ≡ file_read file.now }
    ensures from_1 { IfErr result.outcome (λ bad. 0 < bad.0) }
{
    let first = line_end(file, 0);
    if file.len() <= first {
        return bad_in(1);
    }
    let Some(version) = version_of(&file[..first]) else {
        return bad_in(1);
    };
    let mut draft = Draft::start(version);
    let mut lines = 1;
    let mut at = first + 1;
    // Each turn goes on after the line feed of its line: an iterator over lines would not tell that the last one is missing.
    while at < file.len() {
        let end = line_end(file, at);
        if file.len() <= end {
            return bad_in(lines + 1);
        }
        let taken = draft.with(&file[at..end]);
        match taken {
            Some(next) => draft = next,
            None => return bad_in(lines + 1),
        }
        lines += 1;
        at = end + 1;
    }
    FileRead {
        outcome: Ok(()),
        panel: draft.panel,
    }
}

fn bad_in(line: u64) -> FileRead
    ensures value { read_of result ≡ bad_in line }
    ensures from_1 { 0 < line → IfErr result.outcome (λ bad. 0 < bad.0) }
{
    FileRead {
        outcome: Err(BadLine(line)),
        panel: Panel::empty(),
    }
}
