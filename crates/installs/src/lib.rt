// Document 01, "Edits": install a blind. The call judges first and then does its work, on its own panel; `judge` is lent
// the panel. A refused call hands back the very panel.
#![tactic(auto)]

ghost use Rattle.std.specs.Prelude.{◌≡◌, ◌+◌, ◌<◌};
ghost use Rattle.answers.specs.Numbers.{answer_of};
ghost use Rattle.answers.specs.Answers.{refusal};
ghost use Rattle.panel.specs.Panel.{model_of};
ghost use Rattle.panel.specs.Calls.{no_cells, Does};
ghost use Rattle.terminals.specs.Strip.{terminals};
ghost use Rattle.params.specs.Numbers.{row_of};
ghost use Rattle.seats.specs.Seats.{in_use};
ghost use Rattle.installs.specs.Installs.{install_rule};

use answers::{Answered, Refusal};
use blind::Blind;
use panel::{Panel, Seat};
use params::Asked;
use tags::{CELLS, PLACES};
use terminals::TERMINALS;

// Installs a fresh blind; refused by 12, 1, 4, 10, in this order.
pub fn install(mut panel: Panel, tag: u64, terminal: u64, asked: Asked) -> Answered<Panel>
    ensures { Does (install_rule tag terminal (row_of asked)) panel no_cells result no_cells }
{
    if let Err(refusal) = judge(&panel, tag, terminal, asked) {
        return Answered::refused(panel, refusal);
    }
    let blind = Blind::fresh(asked.params());
    panel.seats[tag as usize] = Seat {
        terminal: terminal as u8,
        blind,
    };
    panel.present = panel.present.with(tag);
    Answered::done(panel, 0)
}

#[tactic(auto, unfolding(crate::specs::Installs::install_rule, panel::specs::Calls::checks, answers::specs::Answers::first), using(seats::proofs::Present::present_at))]
fn judge(panel: &Panel, tag: u64, terminal: u64, asked: Asked) -> Result<(), Refusal>
    ensures { answer_of result ≡ refusal ((install_rule tag terminal (row_of asked)).checks (model_of panel.now) no_cells) }
{
    if !panel.is_sound() {
        return Err(Refusal::NotSound);
    }
    if PLACES <= tag || TERMINALS <= terminal || !asked.in_range() {
        return Err(Refusal::OutOfRange);
    }
    if panel.present.has(tag) {
        return Err(Refusal::AlreadyThere);
    }
    if is_used(panel, terminal) {
        return Err(Refusal::TerminalInUse);
    }
    Ok(())
}

#[tactic(auto, unfolding(seats::specs::Seats::in_use), using(seats::proofs::Walk::rest_all))]
fn is_used(panel: &Panel, terminal: u64) -> bool
    requires { terminal < terminals }
    ensures { result ≡ in_use terminal (terminal + 1) (model_of panel.now) }
{
    for tag in 0..CELLS {
        let seat = panel.seat(tag);
        if seats::stands_within(seat, terminal, terminal + 1) {
            return true;
        }
    }
    false
}
