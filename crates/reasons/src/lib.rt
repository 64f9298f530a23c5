// Document 02, K1, "Why didn't it move?": the reasons, and which of them holds of a link that was judged on a blind.
#![tactic(auto)]

ghost use Rattle.std.specs.Prelude.{◌≡◌, cond, leb, ltb};
ghost use Rattle.answers.specs.Answers.{first};
ghost use Rattle.kinds.specs.Kinds as kinds;
ghost use Rattle.duties.specs.Rulers.{ruler_of};
ghost use Rattle.reasons.specs.Reasons.{number_of, unjudged, judged, under, is_dropped, unruled_tests, reason_of};

use answers::Refusal;
use blind::{Blind, Motion};
use changes::is_changed;
use duties::Ruler;
use duties::rulers::ruler;
use inputs::Aim;
use inputs::orders::aim;
use kinds::{Kind, class_of_kind};
use rules::heed;
use values::Input;

// In the order of document 02. The first three refuse the question. Not a Result: a refusal is told as a reason too.
#[derive(Clone, Copy)]
pub enum Reason {
    NotSound,
    OutOfRange,
    NoBlind,
    NotLinked,
    WrongClass,
    UnderWind,
    UnderRain,
    UnderFrost,
    UnderForced,
    NoPosition,
    Waiting(u32),
    Acts,
    AlreadySo,
}

impl Reason {
    // The number that the paper gives it, and 0 for a reason without one, as `number_of` has it.
    pub fn number(self) -> u8
        ensures { result ≡ number_of self }
    {
        match self {
            Reason::NotSound => u8::from(Refusal::NotSound),
            Reason::OutOfRange => u8::from(Refusal::OutOfRange),
            Reason::NoBlind => u8::from(Refusal::NoBlind),
            Reason::WrongClass => u8::from(Refusal::NotOfTheClass),
            _ => 0,
        }
    }
}

// The kind of the link that spoke last, and the blind before it spoke and after. The kind is a number, as a link has it; before
// the first link it is 0, and nobody asks.
#[derive(Clone, Copy)]
pub struct Judged {
    pub kind: u8,
    pub before: Blind,
    pub after: Blind,
}

impl Judged {
    // No link has spoken.
    pub fn unjudged(blind: Blind) -> Judged
        ensures { result ≡ unjudged blind }
    {
        Judged {
            kind: 0,
            before: blind,
            after: blind,
        }
    }

    // The next link speaks to the blind that the one before it left.
    pub fn next(self, kind: u8, value: u8) -> Judged
        ensures { result ≡ judged value kind self.after }
    {
        let before = self.after;
        let after = heed(before, Input::of(kind, value));
        Judged {
            kind,
            before,
            after,
        }
    }

    // From the last reasons to the first: each stands back where the one before it holds.
    pub fn reason(self, value: u8) -> Reason
        ensures { result ≡ reason_of value self }
    {
        let unruled = self.unruled(value);
        let free = unless_ruled(self.before, self.kind, unruled);
        unless_of_another_class(self.kind, value, free)
    }

    // Where nobody rules. An order waits, whether it is new or not: what is left of the pause is told.
    #[tactic(auto, unfolding(crate::specs::Reasons::lacks_position, answers::specs::Answers::first))]
    fn unruled(self, value: u8) -> Reason
        ensures { result ≡ first Reason.AlreadySo (unruled_tests value self) }
    {
        if self.kind == Kind::Sapbp as u8 && is_dropped(aim(self.before, value)) {
            return Reason::NoPosition;
        }
        if let Motion::Waits(rest, _) = self.after.motion {
            return Reason::Waiting(rest);
        }
        if is_changed(self.before, self.after) {
            Reason::Acts
        } else {
            Reason::AlreadySo
        }
    }
}

fn is_dropped(aim: Aim) -> bool
    ensures { result ≡ is_dropped aim }
{
    matches!(aim, Aim::Dropped)
}

// A ruler drops commands alone; what sets a flag is heeded under every ruler.
fn unless_ruled(before: Blind, kind: u8, otherwise: Reason) -> Reason
    ensures { result ≡ cond (leb kinds.mud kind) (under (ruler_of before) otherwise) otherwise }
{
    if kind < Kind::Mud as u8 {
        return otherwise;
    }
    under(ruler(before), otherwise)
}

fn under(ruler: Ruler, otherwise: Reason) -> Reason
    ensures { result ≡ under ruler otherwise }
{
    match ruler {
        Ruler::Nobody => otherwise,
        Ruler::Wind => Reason::UnderWind,
        Ruler::Rain => Reason::UnderRain,
        Ruler::Frost => Reason::UnderFrost,
        Ruler::Forced => Reason::UnderForced,
    }
}

fn unless_of_another_class(kind: u8, value: u8, otherwise: Reason) -> Reason
    ensures { result ≡ cond (ltb (kinds.class_of kind) value) Reason.WrongClass otherwise }
{
    if class_of_kind(u32::from(kind)) < u32::from(value) {
        Reason::WrongClass
    } else {
        otherwise
    }
}
