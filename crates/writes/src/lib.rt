// Document 01, "Edits": write the parameters of a blind. The call judges first and then does its work, on its own panel;
// `judge` is lent the panel. A refused call hands back the very panel.
#![tactic(auto)]

ghost use Rattle.std.specs.Prelude.{◌≡◌, Some, IfOk};
ghost use Rattle.answers.specs.Numbers.{answer_of};
ghost use Rattle.answers.specs.Answers.{refusal};
ghost use Rattle.panel.specs.Panel.{model_of, seat_at};
ghost use Rattle.panel.specs.Calls.{no_cells, Does};
ghost use Rattle.params.specs.Numbers.{row_of};
ghost use Rattle.writes.specs.Writes.{write_rule};

use answers::{Answered, Refusal};
use panel::{Panel, Seat};
use params::Asked;
use rules::edits::rewrite;
use seats::judge_named;
use tags::PLACES;

// Writes the parameters of a blind; refused by 12, 1, 2, 3, in this order.
pub fn write_params(mut panel: Panel, tag: u64, asked: Asked) -> Answered<Panel>
    ensures { Does (write_rule tag (row_of asked)) panel no_cells result no_cells }
{
    let seat = match judge(&panel, tag, asked) {
        Err(refusal) => return Answered::refused(panel, refusal),
        Ok(seat) => seat,
    };
    panel.seats[tag as usize].blind = rewrite(seat.blind, asked.params());
    Answered::done(panel, 0)
}

// The seat whose blind is to be written.
fn judge(panel: &Panel, tag: u64, asked: Asked) -> Result<Seat, Refusal>
    ensures answer { answer_of result ≡ refusal ((write_rule tag (row_of asked)).checks (model_of panel.now) no_cells) }
    ensures named { IfOk result (λ seat. seat_at panel.now tag ≡ Some seat) }
{
    if !panel.is_sound() {
        return Err(Refusal::NotSound);
    }
    judge_named(
        (PLACES <= tag) | !asked.in_range(),
        panel.seat(tag as usize),
    )
}
