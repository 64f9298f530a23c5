// Document 01, "Edits": what remove blind does to a table, which also drops the links of its tag. A link that stays moves
// to the next free place.
#![tactic(auto)]

ghost use Rattle.std.specs.Prelude.{◌≡◌, cond, ltb};
ghost use Rattle.std.specs.Int.{from_bool};
ghost use Rattle.link.specs.Link.{of_word};
ghost use Rattle.table.specs.Links.{held_of};
ghost use Rattle.links.specs.Edits.{stays, table_drop, edited, edited_of};

use answers::{Answered, Refusal};
use link::words::{UNUSED, tag_in};
use table::{MOST, Table};

// Removes all links of a tag; refused by 12. A tag that no link has removes nothing. Words are stored where all places are
// unused, so that nothing stays behind the last. The loop has no branch: with an `if` around the store it took half as
// long again.
#[tactic(auto, using(table::proofs::Stores::few))]
pub fn remove_tag(table: Table, tag: u64) -> Answered<Table>
    ensures { edited_of result ≡ edited (table_drop tag) (held_of table) }
{
    if !table.is_sound() {
        return Answered::refused(table, Refusal::NotSound);
    }
    let mut words = [UNUSED; MOST];
    let mut free: usize = 0;
    let mut moved: u64 = 0;
    for (place, &word) in table.words[..table.count].iter().enumerate() {
        let keep = is_kept(word, tag);
        words[free] = kept_word(word, keep);
        moved += places_moved(keep, place, free);
        free += usize::from(keep);
    }
    let left = Table { count: free, words };
    Answered::done(left, moved)
}

// Whether the link of a word stays where the links of a tag go.
fn is_kept(word: u32, tag: u64) -> bool
    ensures { result ≡ stays tag (of_word word) }
{
    tag_in(word) != tag
}

// What a word stores at the free place: one that goes leaves the place unused.
fn kept_word(word: u32, keep: bool) -> u32
    ensures { result ≡ cond keep word 0 }
{
    if keep { word } else { UNUSED }
}

// Whether a word that stays comes to another place, as a number to count with.
fn places_moved(keep: bool, old: usize, new: usize) -> u64
    ensures { result ≡ cond keep (from_bool (ltb new old)) 0 }
{
    if keep { u64::from(new < old) } else { 0 }
}
