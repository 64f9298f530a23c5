// A line with a plant file in it: whether its one argument is a file in one word, and where that word stands.
ghost use Rattle.std.specs.Prelude.{◌≤◌, ◌≡◌, length, drop};
ghost use Rattle.words.specs.Words.{words};
ghost use Rattle.commands.specs.Lines.{second_of, file_in as ofLines·file_in, file_meant};

use crate::lines::without_return;
use crate::{Fault, Meaning};
use file_word::is_file;
use words::{word_end, word_start};

// What the words after `read` mean.
#[tactic(auto, using(crate::proofs::FileLine::no_file, crate::proofs::FileLine::two_files, crate::proofs::FileLine::one_file))]
pub(crate) fn read_file(line: &[u8], after: usize) -> Meaning
    ensures { result ≡ file_meant (words (drop after line.now)) }
{
    let start = word_start(line, after);
    if line.len() <= start {
        return Meaning::Wrong(Fault::WrongCount);
    }
    let end = word_end(line, start);
    let next = word_start(line, end);
    if next < line.len() {
        return Meaning::Wrong(Fault::WrongCount);
    }
    if is_file(&line[start..end]) {
        return Meaning::File;
    }
    Meaning::Wrong(Fault::NotAFile)
}

// The second word of a line, which is no longer than the line.
#[tactic(auto, using(crate::proofs::FileLine::file_within), unfolding(crate::specs::Lines::file_in))]
pub fn file_in(line: &[u8]) -> &[u8]
    ensures line_value { result.now ≡ ofLines·file_in line.now }
    ensures within { length result.now ≤ length line.now }
{
    second_word(without_return(line))
}

#[tactic(auto, using(crate::proofs::FileLine::second_within, crate::proofs::FileLine::second_there))]
fn second_word(line: &[u8]) -> &[u8]
    ensures { result.now ≡ second_of (words line.now) }
{
    let name = word_start(line, 0);
    let after = word_end(line, name);
    let from = word_start(line, after);
    let to = word_end(line, from);
    &line[from..to]
}
