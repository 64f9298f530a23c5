// A line as words, parted by blanks: where the next word starts, where a word ends, and whether it is a certain one.
#![tactic(auto)]

ghost use Rattle.std.specs.Prelude.{◌≡◌, ◌+◌, drop};
ghost use Rattle.std.specs.List.{prefix_len};
ghost use Rattle.texts.specs.Text.{same as ofText·same};
ghost use Rattle.words.specs.Words.{front, belongs, blanks, letters};

const SPACE: u8 = 32;

const TAB: u8 = 9;

// The place of the first byte from here on that is no blank, or the end of the line: no Option, since most callers take the
// line up to it. Line and place are not one type: the place goes on, and the line stays.
pub fn word_start(line: &[u8], from: usize) -> usize
    ensures { result ≡ from + blanks (drop from line.now) }
{
    past(line, from, false)
}

// The place of the first blank from here on, or the end of the line.
pub fn word_end(line: &[u8], from: usize) -> usize
    ensures { result ≡ from + letters (drop from line.now) }
{
    past(line, from, true)
}

// Past the rest of a word, or past the blanks. `place_of` of rows is alike: one function for both, handed which bytes to pass,
// would require of its callers that it may be called.
#[tactic(auto, using(std::proofs::lemmas::List::take_rest, crate::proofs::NextWord::front_counts, crate::proofs::NextWord::front_past, crate::proofs::NextWord::front_within))]
fn past(line: &[u8], from: usize, word: bool) -> usize
    ensures { result ≡ from + front (belongs word) (drop from line.now) }
{
    match line.get(from..) {
        Some(rest) => from + together(rest, word),
        None => from,
    }
}

// How many bytes at the front of a row belong together.
fn together(row: &[u8], word: bool) -> usize
    ensures { result ≡ prefix_len (belongs word) row.now }
{
    row.iter().take_while(|byte| is_part(**byte, word)).count()
}

#[tactic(auto, unfolding(crate::specs::Words::is_blank))]
fn is_part(byte: u8, word: bool) -> bool
    ensures { result ≡ belongs word byte }
{
    matches!(byte, SPACE | TAB) != word
}

// Whether a word is this one: what `==` says, in the word of the specs, which the contracts of its callers are stated in.
#[tactic(auto, using(crate::proofs::NextWord::same_bytes))]
pub fn is_same(word: &[u8], other: &[u8]) -> bool
    ensures { result ≡ ofText·same word.now other.now }
{
    word == other
}
