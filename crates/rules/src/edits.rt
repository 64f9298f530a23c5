// Document 01, "Edits", for one blind: what the new parameters leave of it, and then who rules it.
#![tactic(auto, unfolding(crate::specs::Edits::rewritten))]

ghost use Rattle.std.specs.Prelude.{◌≡◌};
ghost use Rattle.rules.specs.Edits.{rewritten};

use crate::ruled;
use blind::{Blind, Motion};
use duties::rulers::duty;
use heights::Place;
use params::Params;

pub fn rewrite(blind: Blind, params: Params) -> Blind
    ensures { result ≡ rewritten params blind }
{
    let before = duty(blind);
    ruled(
        Blind {
            params,
            place: Place::UNKNOWN,
            motion: Motion::Off(params.rpt),
            ..blind
        },
        before,
    )
}
