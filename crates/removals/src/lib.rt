// Document 01, "Edits": remove a blind. The call judges first and then does its work, on its own panel. The table's own edit
// judges the table; where the blind refuses there is no edit, and the table is only judged. A refused call hands back the
// very panel.
#![tactic(auto)]

ghost use Rattle.std.specs.Prelude.{◌≡◌, cond};
ghost use Rattle.answers.specs.Numbers.{number_of};
ghost use Rattle.panel.specs.Calls.{no_cells, Does};
ghost use Rattle.removals.specs.Removals.{remove_rule};

use answers::{Answered, Refusal};
use drops::remove_tag;
use panel::Panel;
use panel::soundness::all_named;
use seats::judge_named;
use tags::PLACES;

// Removes a blind and its links; refused by 12, 1, 2, 3, in this order.
pub fn remove_blind(mut panel: Panel, tag: u64) -> Answered<Panel>
    ensures { Does (remove_rule tag) panel no_cells result no_cells }
{
    if !panel.seats_sound() {
        return Answered::refused(panel, Refusal::NotSound);
    }
    if !all_named(panel.present, &panel.table.words, panel.table.count) {
        return Answered::refused(panel, Refusal::NotSound);
    }
    if let Err(refusal) = judge_named(PLACES <= tag, panel.seat(tag as usize)) {
        let first = if_sound(panel.table.is_sound(), refusal);
        return Answered::refused(panel, first);
    }
    let dropped = remove_tag(panel.table, tag);
    match dropped.outcome {
        Err(refusal) => Answered::refused(panel, refusal),
        Ok(moved) => {
            panel.present = panel.present.without(tag);
            panel.table = dropped.state;
            Answered::done(panel, moved)
        }
    }
}

// What refuses the blind; 12 comes before it where the table is not sound.
fn if_sound(sound: bool, refusal: Refusal) -> Refusal
    ensures { number_of result ≡ cond sound (number_of refusal) 12 }
{
    if sound { refusal } else { Refusal::NotSound }
}
