// Document 01, "Edits": add a link to a table, remove a link. Each answers how many surviving links stand at another place
// than before; a refused edit hands the table back as it was. Whatever a table holds, every call answers: one that is not
// sound is refused by 12.
#![tactic(auto)]

mod search;

ghost use Rattle.std.specs.Prelude.{◌≤◌, ◌<◌, suc, ◌≡◌, true, IfOk, ◌∷◌, ◌++◌, take, drop};
ghost use Rattle.answers.specs.Answers.{refusal};
ghost use Rattle.answers.specs.Numbers.{answer_of};
ghost use Rattle.link.specs.Link.{key_of, of_word};
ghost use Rattle.table.specs.Links.{rank, held_of, holding};
ghost use Rattle.table.specs.Sound.{most};
ghost use Rattle.links.specs.Edits.{table_add, table_remove, edited, edited_of};

use crate::search::{find, other_class};
use answers::{Answered, Refusal};
use link::Link;
use link::words::UNUSED;
use table::{MOST, Table};

// The place of a new link, or what refuses it, in the paper's order.
#[tactic(auto, unfolding(crate::specs::Edits::table_add, crate::specs::Edits::add_checks, answers::specs::Answers::first))]
fn place_for(table: &Table, link: Link) -> Result<usize, Refusal>
    ensures answer { answer_of result ≡ refusal ((table_add link).checks (held_of table.now) tt) }
    ensures place { IfOk result (λ place. place ≡ rank key_of (key_of link) (held_of table.now).links) }
{
    if !table.is_sound() {
        return Err(Refusal::NotSound);
    }
    if !link.in_range() {
        return Err(Refusal::OutOfRange);
    }
    let Err(place) = find(table, link) else {
        return Err(Refusal::AlreadyThere);
    };
    if other_class(table, link) {
        return Err(Refusal::AnotherClass);
    }
    if MOST <= table.count {
        return Err(Refusal::TableFull);
    }
    Ok(place)
}

// The place of a link that is there, or what refuses it.
#[tactic(auto, unfolding(crate::specs::Edits::table_remove, answers::specs::Answers::first))]
fn place_of(table: &Table, link: Link) -> Result<usize, Refusal>
    ensures answer { answer_of result ≡ refusal ((table_remove link).checks (held_of table.now) tt) }
    ensures place { IfOk result (λ place. place ≡ rank key_of (key_of link) (held_of table.now).links) }
{
    if !table.is_sound() {
        return Err(Refusal::NotSound);
    }
    find(table, link).map_err(|_| Refusal::NoLink)
}

// The table with a word put in at a place: the words from there on move up by one.
#[tactic(auto, using(crate::proofs::Shifts::with_held))]
fn with_at(mut table: Table, place: usize, word: u32) -> Table
    requires place_le_count { place ≤ table.count }
    requires count_lt_most { table.count < most }
    requires table_value { (held_of table).tidy ≡ true }
    ensures { held_of result ≡ holding (take place (held_of table).links ++ of_word word ∷ drop place (held_of table).links) }
{
    let count = table.count;
    table.words.copy_within(place..count, place + 1);
    table.words[place] = word;
    table.count = count + 1;
    table
}

// The table without the word at a place: the words after it move down by one, and the last one's place is unused.
#[tactic(auto, using(crate::proofs::Shifts::without_held))]
fn without_at(mut table: Table, place: usize) -> Table
    requires place_lt_count { place < table.count }
    requires count_le_most { table.count ≤ most }
    requires table_value { (held_of table).tidy ≡ true }
    ensures { held_of result ≡ holding (take place (held_of table).links ++ drop (suc place) (held_of table).links) }
{
    let count = table.count;
    table.words.copy_within(place + 1..count, place);
    table.words[count - 1] = UNUSED;
    table.count = count - 1;
    table
}

// Adds a link; refused by 12, 1, 4, 8, 7, in this order.
#[tactic(auto, using(crate::proofs::Leaves::add_low, crate::proofs::Leaves::add_room, crate::proofs::Leaves::add_tidy, crate::proofs::Leaves::added_at, crate::proofs::Calls::edit_refused))]
pub fn add(table: Table, link: Link) -> Answered<Table>
    ensures { edited_of result ≡ edited (table_add link) (held_of table) }
{
    match place_for(&table, link) {
        Ok(place) => {
            let moved = table.count - place;
            Answered::done(with_at(table, place, link.word()), moved as u64)
        }
        Err(refusal) => Answered::refused(table, refusal),
    }
}

// Removes a link; refused by 12, 5, in this order.
#[tactic(auto, using(crate::proofs::Leaves::remove_low, crate::proofs::Leaves::remove_few, crate::proofs::Leaves::remove_tidy, crate::proofs::Leaves::removed_at, crate::proofs::Calls::edit_refused))]
pub fn remove(table: Table, link: Link) -> Answered<Table>
    ensures { edited_of result ≡ edited (table_remove link) (held_of table) }
{
    match place_of(&table, link) {
        Ok(place) => {
            let moved = table.count - 1 - place;
            Answered::done(without_at(table, place), moved as u64)
        }
        Err(refusal) => Answered::refused(table, refusal),
    }
}
