// A line as a command: what it means, or what is wrong with it, the first mistake first.
ghost use Rattle.std.specs.Prelude.{◌≤◌, ◌≡◌};
ghost use Rattle.words.specs.Words.{words};
ghost use Rattle.arguments.specs.Arguments.{value_at};
ghost use Rattle.commands.specs.Lines.{without_return as ofLines·without_return, set_after, meaning_of, judged, called, lent_bytes, line_means};

use crate::file_line::read_file;
use crate::{Command, Edit, Fault, Meaning};
use arguments::Arguments;
use fields::ROOM;
use names::{Entry, Name};
use params::{Asked, SET};
use words::{is_same, word_end, word_start};

// The longest line that is read; a carriage return counts, the line feed does not.
pub const LONGEST: usize = 32_768;

const RETURN: u8 = 13;

const COMMENT: u8 = b'#';

// What a line means, without its line feed.
#[tactic(auto, unfolding(crate::specs::Lines::line_means))]
pub fn read_line(line: &[u8]) -> Meaning
    ensures { result ≡ line_means line.now }
{
    if LONGEST < line.len() {
        return Meaning::Wrong(Fault::TooLong);
    }
    read_words(without_return(line))
}

// A carriage return at the end of a line does not belong to it.
pub(crate) fn without_return(line: &[u8]) -> &[u8]
    ensures { result.now ≡ ofLines·without_return line.now }
{
    line.strip_suffix(&[RETURN]).unwrap_or(line)
}

#[tactic(auto, using(crate::proofs::Meanings::nothing_meant, crate::proofs::Meanings::comment_meant, crate::proofs::Meanings::file_meant_lem, crate::proofs::Meanings::command_meant), unfolding(texts::specs::Text::text, laws::specs::Fills::tabulate))]
fn read_words(line: &[u8]) -> Meaning
    ensures { result ≡ meaning_of (words line.now) }
{
    let start = word_start(line, 0);
    if line.len() <= start {
        return Meaning::Silent;
    }
    if line[start] == COMMENT {
        return Meaning::Silent;
    }
    let end = word_end(line, start);
    let name = &line[start..end];
    if is_same(name, b"read") {
        return read_file(line, end);
    }
    judge(Entry::of(name), Arguments::of(line, end))
}

#[tactic(auto, unfolding(crate::specs::Lines::judged))]
fn judge(entry: Option<Entry>, arguments: Arguments) -> Meaning
    ensures { result ≡ judged entry arguments.count arguments.numeric (value_at arguments) }
{
    let Some(entry) = entry else {
        return Meaning::Wrong(Fault::UnknownCommand);
    };
    if !entry.takes(arguments.count) {
        return Meaning::Wrong(Fault::WrongCount);
    }
    if !arguments.numeric {
        return Meaning::Wrong(Fault::NotANumber);
    }
    Meaning::Call(call(entry.name, arguments))
}

// The call that a name and its arguments make.
#[tactic(auto, unfolding(crate::specs::Lines::called))]
fn call(name: Name, given: Arguments) -> Command
    ensures { result ≡ called name given.count (value_at given) }
{
    let [a, b, c, ..] = given.values;
    match name {
        Name::New => Command::New,
        Name::Show => Command::Show,
        Name::Strip => Command::Strip,
        Name::Inv => Command::Inv,
        Name::Install => Command::Edit(Edit::Install(a, b, set_after(given, 2))),
        Name::Remove => Command::Edit(Edit::Remove(a)),
        Name::Params => Command::Edit(Edit::Params(a, set_after(given, 1))),
        Name::Link => Command::Edit(Edit::Link(a, b, c)),
        Name::Unlink => Command::Edit(Edit::Unlink(a, b, c)),
        Name::In => Command::Edit(Edit::In(a, b)),
        Name::Out => Command::Edit(Edit::Out(a, b)),
        Name::Tel => Command::Tel(a, b),
        Name::Time => Command::Time(a),
        Name::Percent => Command::Percent(a),
        Name::Why => Command::Why(a, b, c),
        Name::Write => Command::Write(lent_bytes(given)),
    }
}

// How many bytes are lent for a file; where nothing is said, as many as it can need.
#[tactic(auto, unfolding(crate::specs::Lines::lent_bytes))]
fn lent_bytes(given: Arguments) -> u64
    ensures { result ≡ lent_bytes given.count (value_at given) }
{
    if given.count == 0 {
        return ROOM as u64;
    }
    given.values[0]
}

// The set of parameters after the first arguments; where there is none, the default set.
#[tactic(auto, unfolding(crate::specs::Lines::set_after))]
fn set_after(given: Arguments, first: usize) -> Asked
    requires { first ≤ 2 }
    ensures { result ≡ set_after first given.count (value_at given) }
{
    if given.count <= first {
        return Asked::default_set();
    }
    let mut row = [0; SET];
    row.copy_from_slice(&given.values[first..first + SET]);
    Asked::from(row)
}
