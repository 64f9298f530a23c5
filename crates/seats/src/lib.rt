// Document 01, "Numbers the panel answers": what the edits ask of one tag, its terminal and its blind. They ask it of tag
// after tag, or of the one that they name. An absent tag has no seat: it carries nothing, whatever stands at its place.
#![tactic(auto)]

ghost use Rattle.std.specs.Prelude.{◌≡◌, not, [], ◌∷◌, IfOk, Some};
ghost use Rattle.answers.specs.Numbers.{answer_of};
ghost use Rattle.answers.specs.Answers.{refusal};
ghost use Rattle.panel.specs.Panel.{found, is_there};
ghost use Rattle.panel.specs.Calls.{outside};
ghost use Rattle.seats.specs.Seats.{there_and, stands_within, busy_above, passes_end, is_busy};

use answers::Refusal;
use panel::Seat;
use terminals::TERMINALS;

// Whether there is a seat, at a terminal from `from` on and below `end`.
pub fn stands_within(seat: Option<Seat>, from: u64, end: u64) -> bool
    ensures { result ≡ there_and (stands_within from end) (found seat) }
{
    seat.is_some_and(|seat| (from..end).contains(&u64::from(seat.terminal)))
}

// Whether there is a seat, at a terminal from `from` on, and its blind is busy.
pub fn is_busy_above(seat: Option<Seat>, from: u64) -> bool
    ensures { result ≡ there_and (busy_above from) (found seat) }
{
    seat.is_some_and(|seat| from <= u64::from(seat.terminal) && outputs::is_busy(seat.blind))
}

// Whether there is a seat, at a terminal from `from` on that would pass the end of the strip by rising n.
// Compared without a sum, so that any n may be asked for.
#[tactic(auto, using(crate::proofs::Strip::left_over))]
pub fn passes_end(seat: Option<Seat>, from: u64, n: u64) -> bool
    ensures { result ≡ there_and (passes_end from n) (found seat) }
{
    seat.is_some_and(|seat| {
        let place = u64::from(seat.terminal);
        from <= place && TERMINALS.saturating_sub(place) <= n
    })
}

// The seat of a blind that is named, or what refuses it: an argument is outside its range, the blind is not there, or it is
// busy.
#[tactic(auto, unfolding(answers::specs::Answers::first))]
pub fn judge_named(out: bool, seat: Option<Seat>) -> Result<Seat, Refusal>
    ensures answer { answer_of result ≡ refusal (outside out ∷ (not (is_there (found seat)), 2) ∷ (is_busy (found seat), 3) ∷ []) }
    ensures named { IfOk result (λ named. seat ≡ Some named) }
{
    if out {
        return Err(Refusal::OutOfRange);
    }
    let Some(named) = seat else {
        return Err(Refusal::NoBlind);
    };
    if outputs::is_busy(named.blind) {
        return Err(Refusal::Busy);
    }
    Ok(named)
}
