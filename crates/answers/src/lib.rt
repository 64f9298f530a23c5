// Document 01, "Numbers the panel answers": why a call is refused, each reason with its number in the table, those that
// document 02 adds included, and what a call hands back. Whoever refuses says it by one of these names.
#![tactic(auto)]

ghost use Rattle.std.specs.Prelude.{◌≡◌};
ghost use Rattle.answers.specs.Numbers.{number_of, answer_of, count_of, refused_on, done_on};

#[derive(Clone, Copy, PartialEq, Eq)]
pub enum Refusal {
    OutOfRange,
    NoBlind,
    Busy,
    AlreadyThere,
    NoLink,
    NotOfTheClass,
    TableFull,
    AnotherClass,
    PastTheStrip,
    TerminalInUse,
    WrongCells,
    NotSound,
    ShortBuffer,
}

impl From<Refusal> for u8 {
    ghost from_gives = { λ refusal number. number ≡ number_of refusal };

    fn from(refusal: Refusal) -> u8 {
        match refusal {
            Refusal::OutOfRange => 1,
            Refusal::NoBlind => 2,
            Refusal::Busy => 3,
            Refusal::AlreadyThere => 4,
            Refusal::NoLink => 5,
            Refusal::NotOfTheClass => 6,
            Refusal::TableFull => 7,
            Refusal::AnotherClass => 8,
            Refusal::PastTheStrip => 9,
            Refusal::TerminalInUse => 10,
            Refusal::WrongCells => 11,
            Refusal::NotSound => 12,
            Refusal::ShortBuffer => 13,
        }
    }
}

// The number of an outcome: 0 where the call is done.
pub fn number<T: Copy>(outcome: Result<T, Refusal>) -> u8
    ensures { result ≡ answer_of outcome }
{
    match outcome {
        Ok(_) => 0,
        Err(refusal) => u8::from(refusal),
    }
}

// What a call hands back: its count or what refuses it, and what it was called on, as the call leaves that.
#[derive(Clone, Copy)]
pub struct Answered<S> {
    pub outcome: Result<u64, Refusal>,
    pub state: S,
}

impl<S: Copy> Answered<S> {
    pub fn refused(state: S, refusal: Refusal) -> Answered<S>
        ensures { result ≡ refused_on state refusal }
    {
        Answered {
            outcome: Err(refusal),
            state,
        }
    }

    pub fn done(state: S, count: u64) -> Answered<S>
        ensures { result ≡ done_on state count }
    {
        Answered {
            outcome: Ok(count),
            state,
        }
    }

    // The number of the table.
    pub fn number(self) -> u8
        ensures { result ≡ answer_of self.outcome }
    {
        number(self.outcome)
    }

    // The count with it, 0 where the call is refused.
    pub fn count(self) -> u64
        ensures { result ≡ count_of self.outcome }
    {
        self.outcome.unwrap_or(0)
    }
}
