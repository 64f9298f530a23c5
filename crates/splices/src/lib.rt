// Document 01, "Edits", splices: terminals are put into the strip or taken out of it, and the terminals after them move.
// Both ways are one: the first `down` terminals from t on are taken out, and those after them rise by `up` and fall by
// `down`. One pass over the tags judges, one writes the terminals of the present tags; blinds, links and tags stay.
#![tactic(auto)]

ghost use Rattle.std.specs.Prelude.{◌+◌, ◌≤◌, ◌<◌, ◌≡◌, true, cond, [], ◌∷◌, length};
ghost use Rattle.answers.specs.Numbers.{answer_of};
ghost use Rattle.answers.specs.Answers.{refusal};
ghost use Rattle.tags.specs.Tags.{places, tags_of};
ghost use Rattle.panel.specs.Panel.{model_of};
ghost use Rattle.terminals.specs.Strip as strip;
ghost use Rattle.panel.specs.Calls.{no_cells, Does};
ghost use Rattle.splices.specs.Splices.{off_strip, splice_in_rule, splice_out_rule};
ghost use Rattle.splices.specs.Places.{moved, splice_rule, Room, shifted_places};

use answers::{Answered, Refusal};
use panel::{Panel, Seat};
use tags::{CELLS, Tags};
use terminals::TERMINALS;

// Splices n terminals in at t; refused by 12, 1, 3, 9, in this order.
pub fn splice_in(mut panel: Panel, t: u64, n: u64) -> Answered<Panel>
    ensures { Does (splice_in_rule t n) panel no_cells result no_cells }
{
    match judge(&panel, t, n, n, 0) {
        Err(refusal) => Answered::refused(panel, refusal),
        Ok(()) => {
            shift_all(panel.present, &mut panel.seats, t, n, 0);
            Answered::done(panel, 0)
        }
    }
}

// Splices n terminals out at t; refused by 12, 1, 10, 3, in this order.
pub fn splice_out(mut panel: Panel, t: u64, n: u64) -> Answered<Panel>
    ensures { Does (splice_out_rule t n) panel no_cells result no_cells }
{
    match judge(&panel, t, n, 0, n) {
        Err(refusal) => Answered::refused(panel, refusal),
        Ok(()) => {
            shift_all(panel.present, &mut panel.seats, t, 0, n);
            Answered::done(panel, 0)
        }
    }
}

// What refuses a splice.
fn judge(panel: &Panel, t: u64, n: u64, up: u64, down: u64) -> Result<(), Refusal>
    requires { down ≤ n }
    ensures { answer_of result ≡ refusal ((splice_rule t n up down).checks (model_of panel.now) no_cells) }
{
    if !panel.is_sound() {
        return Err(Refusal::NotSound);
    }
    if is_off_strip(t, n) {
        return Err(Refusal::OutOfRange);
    }
    let from = t + down;
    let mut used = false;
    let mut busy = false;
    let mut past = false;
    for tag in 0..CELLS {
        let seat = panel.seat(tag);
        used |= seats::stands_within(seat, t, from);
        busy |= seats::is_busy_above(seat, from);
        past |= seats::passes_end(seat, from, up);
    }
    first_met(used, busy, past)
}

// What was met at a tag: a terminal in use, a busy blind, or a terminal that would pass the strip.
#[tactic(auto, unfolding(answers::specs::Answers::first))]
fn first_met(used: bool, busy: bool, past: bool) -> Result<(), Refusal>
    ensures { answer_of result ≡ refusal ((used, 10) ∷ (busy, 3) ∷ (past, 9) ∷ []) }
{
    if used {
        return Err(Refusal::TerminalInUse);
    }
    if busy {
        return Err(Refusal::Busy);
    }
    if past {
        return Err(Refusal::PastTheStrip);
    }
    Ok(())
}

// Compared without a sum, which could wrap.
#[tactic(auto, unfolding(crate::specs::Splices::off_strip), using(crate::proofs::Strip::less_left))]
fn is_off_strip(t: u64, n: u64) -> bool
    ensures { result ≡ off_strip t n }
{
    TERMINALS <= t || n == 0 || TERMINALS - t < n
}

// The terminals of the present tags move.
fn shift_all(present: Tags, seats: &mut [Seat], t: u64, up: u64, down: u64)
    requires places { length seats.old ≡ places }
    requires room { Room (tags_of present) seats.old t up down }
    ensures { seats.new ≡ shifted_places (tags_of present) (moved t up down) seats.old }
{
    for tag in 0..CELLS {
        let terminal = seats[tag].terminal;
        seats[tag].terminal = shift(present, tag, terminal, t, up, down);
    }
}

// What stands at an absent tag's place stays.
#[tactic(auto, unfolding(crate::specs::Places::moved))]
fn shift(present: Tags, tag: usize, terminal: u8, t: u64, up: u64, down: u64) -> u8
    requires down_bound { t + down ≤ strip.terminals }
    requires up_bound { tags_of present tag ≡ true → t + down ≤ terminal → terminal + up < strip.terminals }
    ensures { result ≡ cond (tags_of present tag) (moved t up down terminal) terminal }
{
    let place = u64::from(terminal);
    if !present.has(tag as u64) || place < t + down {
        return terminal;
    }
    (place + up - down) as u8
}
