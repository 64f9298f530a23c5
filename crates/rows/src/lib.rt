// Lines in a row of bytes that arrives in parts: where a line ends, and what of it waits at the front for the rest.
#![tactic(auto)]

ghost use Rattle.std.specs.Prelude.{◌+◌, eqb, not, ◌≡◌, length, drop};
ghost use Rattle.std.specs.List.{prefix_len};
ghost use Rattle.rows.specs.Lines.{until, movable, moved};

const LINE_FEED: u8 = 10;

// The place of the first such byte from here on, or the end of the row: no Option, since most callers take the row up to it.
#[tactic(auto, using(std::proofs::lemmas::List::take_rest, words::proofs::NextWord::front_counts, words::proofs::NextWord::front_past, words::proofs::NextWord::front_within))]
pub fn place_of(mark: u8, bytes: &[u8], from: usize) -> usize
    ensures { result ≡ from + until mark (drop from bytes.now) }
{
    match bytes.get(from..) {
        Some(rest) => from + others(mark, rest),
        None => from,
    }
}

// How many bytes stand before the first such byte.
fn others(mark: u8, row: &[u8]) -> usize
    ensures { result ≡ prefix_len (λ byte. not (eqb byte mark)) row.now }
{
    row.iter().take_while(|byte| **byte != mark).count()
}

// The end of the line that begins here: the place of its line feed, or the end of the row.
pub fn line_end(bytes: &[u8], from: usize) -> usize
    ensures { result ≡ from + until 10 (drop from bytes.now) }
{
    place_of(LINE_FEED, bytes, from)
}

// Moves bytes to the front and hands back how many: none where there are not so many from there on.
pub fn move_to_front(bytes: &mut [u8], start: usize, count: usize) -> usize
    ensures value { result ≡ movable (length bytes.old) start count }
    ensures bytes_after { bytes.new ≡ moved start result bytes.old }
{
    if bytes.len() < start {
        return 0;
    }
    if bytes.len() - start < count {
        return 0;
    }
    bytes.copy_within(start..start + count, 0);
    count
}
