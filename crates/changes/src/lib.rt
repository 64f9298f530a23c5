// Whether a telegram changed a blind: it can touch the flags, the last direction and the motion, and nothing else of it.
#![tactic(auto)]

ghost use Rattle.std.specs.Prelude.{◌≡◌};
ghost use Rattle.changes.specs.Changes.{same_flags, same_motion, changed};

use blind::{Blind, Flags, Motion};

#[tactic(auto, unfolding(crate::specs::Changes::changed))]
pub fn is_changed(before: Blind, after: Blind) -> bool
    ensures { result ≡ changed before after }
{
    !(same_flags(before.flags, after.flags)
        && before.last == after.last
        && same_motion(before.motion, after.motion))
}

// The derived `==`, in a function of its own like the next: with both in one body the proof did not close.
#[tactic(auto, unfolding(crate::specs::Changes::same_flags))]
fn same_flags(one: Flags, other: Flags) -> bool
    ensures { result ≡ same_flags one other }
{
    one == other
}

#[tactic(auto, unfolding(crate::specs::Changes::same_motion, crate::specs::Changes::is_off, crate::specs::Changes::is_waiting, crate::specs::Changes::is_running, crate::specs::Changes::same_run))]
fn same_motion(one: Motion, other: Motion) -> bool
    ensures { result ≡ same_motion one other }
{
    one == other
}
