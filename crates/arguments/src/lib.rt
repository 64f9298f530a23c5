// The command language of the bench, its arguments: the words after the command's name, read as numbers. What is more than
// any command takes is counted once and not kept.
#![tactic(auto)]

ghost use Rattle.std.specs.Prelude.{◌≡◌, drop};
ghost use Rattle.words.specs.Words.{words};
ghost use Rattle.arguments.specs.Arguments.{nothing, with, heard};

use decimals::read_number;
use words::{word_end, word_start};

// The most arguments that are kept.
pub const MOST: usize = 12;

#[derive(Clone, Copy)]
pub struct Arguments {
    // How many there are, or one more than are kept.
    pub count: usize,
    // Whether each is a number: a flag, since the definition `judged` (crate commands) tells a wrong count before it.
    pub numeric: bool,
    // A row and not a Vec: no crate has a heap. Past its end words are still counted.
    pub values: [u64; MOST],
}

impl Arguments {
    #[tactic(auto, unfolding(crate::specs::Arguments::nothing))]
    pub fn nothing() -> Arguments
        ensures { result ≡ nothing }
    {
        Arguments {
            count: 0,
            numeric: true,
            values: [0; MOST],
        }
    }

    // All words of a line from a place on.
    #[tactic(auto, using(words::proofs::WordByWord::past_blanks, words::proofs::WordByWord::word_within, words::proofs::WordByWord::word_some, crate::proofs::Collected::heard_start))]
    pub fn of(line: &[u8], from: usize) -> Arguments
        ensures { result ≡ heard nothing (words (drop from line.now)) }
    {
        let mut heard = Arguments::nothing();
        // Not counted: each turn goes on from where its word ends.
        let mut at = word_start(line, from);
        while at < line.len() {
            let end = word_end(line, at);
            let word = read_number(&line[at..end]);
            heard = heard.with(word);
            at = word_start(line, end);
        }
        heard
    }

    // One word more.
    #[tactic(auto, unfolding(crate::specs::Arguments::with))]
    pub fn with(self, word: Option<u64>) -> Arguments
        ensures { result ≡ with self word }
    {
        let mut heard = self;
        match word {
            None => heard.numeric = false,
            Some(value) if self.count < MOST => heard.values[self.count] = value,
            Some(_) => {}
        }
        heard.count = self.count.min(MOST) + 1;
        heard
    }
}
