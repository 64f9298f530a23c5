// Document 01, "Edits": add link, remove link. The link table's own edit does the work, answers how many surviving links
// moved, and judges the table; the panel adds what only it knows, whether its seats are sound, whether every link names
// a blind, and whether the new link's blind is there. A refused call hands back the very panel.
#![tactic(auto)]

ghost use Rattle.std.specs.Prelude.{◌≡◌, not, ◌&&◌, [], ◌∷◌, eqb, IfOk, Ok};
ghost use Rattle.answers.specs.Answers.{first};
ghost use Rattle.answers.specs.Numbers.{answer_of};
ghost use Rattle.tags.specs.Tags.{tags_of};
ghost use Rattle.link.specs.Link.{link_of};
ghost use Rattle.table.specs.Links.{held_of};
ghost use Rattle.panel.specs.Sound.{all_named};
ghost use Rattle.panel.specs.Calls.{no_cells, Does};
ghost use Rattle.wiring.specs.Wiring.{add_rule, remove_link_rule};

use answers::{Answered, Refusal};
use link::Link;
use links::{add, remove};
use panel::Panel;
use panel::soundness::all_named;

// Adds a link; refused by 12, 1, 2, 4, 8, 7, in this order.
pub fn add_link(mut panel: Panel, address: u64, tag: u64, kind: u64) -> Answered<Panel>
    ensures { Does (add_rule (link_of address tag kind)) panel no_cells result no_cells }
{
    if !panel.seats_sound() {
        return Answered::refused(panel, Refusal::NotSound);
    }
    let grown = add(panel.table, Link::made(address, tag, kind));
    if !links_sound(&panel, grown.outcome) {
        return Answered::refused(panel, Refusal::NotSound);
    }
    let fits = Link::fits(address, tag, kind);
    let there = panel.present.has(tag);
    match judge_new(fits, there, grown.outcome) {
        Err(refusal) => Answered::refused(panel, refusal),
        Ok(moved) => {
            panel.table = grown.state;
            Answered::done(panel, moved)
        }
    }
}

// Removes a link; refused by 12, 1, 5, in this order.
pub fn remove_link(mut panel: Panel, address: u64, tag: u64, kind: u64) -> Answered<Panel>
    ensures { Does (remove_link_rule (link_of address tag kind)) panel no_cells result no_cells }
{
    if !panel.seats_sound() {
        return Answered::refused(panel, Refusal::NotSound);
    }
    let shrunk = remove(panel.table, Link::made(address, tag, kind));
    if !links_sound(&panel, shrunk.outcome) {
        return Answered::refused(panel, Refusal::NotSound);
    }
    let fits = Link::fits(address, tag, kind);
    match judge_old(fits, shrunk.outcome) {
        Err(refusal) => Answered::refused(panel, refusal),
        Ok(moved) => {
            panel.table = shrunk.state;
            Answered::done(panel, moved)
        }
    }
}

// Whether the links of the panel are sound, from what the table's own edit answered: it judges the table.
fn links_sound(panel: &Panel, edited: Result<u64, Refusal>) -> bool
    ensures { result ≡ (not (eqb (answer_of edited) 12) && all_named (tags_of panel.now.present) (held_of panel.now.table).links) }
{
    edited != Err(Refusal::NotSound)
        && all_named(panel.present, &panel.table.words, panel.table.count)
}

// What refuses a new link on a sound panel: its range, its blind, and then what the table answered.
#[tactic(auto, unfolding(answers::specs::Answers::first))]
fn judge_new(fits: bool, there: bool, edited: Result<u64, Refusal>) -> Result<u64, Refusal>
    ensures answer { answer_of result ≡ first (answer_of edited) ((not fits, 1) ∷ (not there, 2) ∷ []) }
    ensures moved { IfOk result (λ moved. edited ≡ Ok moved) }
{
    if !fits {
        return Err(Refusal::OutOfRange);
    }
    if !there {
        return Err(Refusal::NoBlind);
    }
    edited
}

// What refuses a link that is to go: its range, and then what the table answered.
#[tactic(auto, unfolding(answers::specs::Answers::first))]
fn judge_old(fits: bool, edited: Result<u64, Refusal>) -> Result<u64, Refusal>
    ensures answer { answer_of result ≡ first (answer_of edited) ((not fits, 1) ∷ []) }
    ensures moved { IfOk result (λ moved. edited ≡ Ok moved) }
{
    if fits {
        edited
    } else {
        Err(Refusal::OutOfRange)
    }
}
