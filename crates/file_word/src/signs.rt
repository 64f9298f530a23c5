// The signs of a word, read byte by byte: how far a sign is read, and the byte that it stands for once it is whole.
ghost use Rattle.std.specs.Prelude.{◌<◌, ◌≡◌};
ghost use Rattle.texts.specs.Lent.{Puts};
ghost use Rattle.file_word.specs.FileWord.{goes_on, stands, given, hex_of, plain as ofFileWord·plain, lettered as ofFileWord·lettered, first_digit, second_digit, with};

use texts::Sheet;

const BASE: u8 = 16;

// How far a sign is read: none is open, a backslash, an `x` after it, one digit after that; or it is none of the signs.
#[derive(Clone, Copy, PartialEq)]
pub enum Sign {
    Over,
    Begun,
    Hex,
    Half(u8),
    Bad,
}

// What one byte more makes: how far a sign is read then, and the byte that is given, if one is.
#[derive(Clone, Copy)]
pub struct Step {
    pub sign: Sign,
    gives: Option<u8>,
}

impl Step {
    fn goes_on(sign: Sign) -> Step
        ensures { result ≡ goes_on sign }
    {
        Step { sign, gives: None }
    }

    fn stands(byte: u8) -> Step
        ensures { result ≡ stands byte }
    {
        Step {
            sign: Sign::Over,
            gives: Some(byte),
        }
    }

    // The byte that is given goes on the sheet.
    #[tactic(auto, unfolding(texts::specs::Sheet::puts))]
    pub(crate) fn put_given(self, sheet: &mut Sheet<'_>)
        ensures { Puts (given self) sheet.old sheet.new }
    {
        if let Some(byte) = self.gives {
            sheet.put(byte);
        }
    }
}

impl Sign {
    // One byte more of the word.
    #[tactic(auto, unfolding(crate::specs::FileWord::with))]
    pub(crate) fn with(self, byte: u8) -> Step
        ensures { result ≡ with self byte }
    {
        match self {
            Sign::Over => plain(byte),
            Sign::Begun => lettered(byte),
            Sign::Hex => first_digit(byte),
            Sign::Half(high) => second_digit(high, byte),
            Sign::Bad => Step::goes_on(Sign::Bad),
        }
    }
}

// A byte where no sign is open.
#[tactic(auto, unfolding(crate::specs::FileWord::plain))]
fn plain(byte: u8) -> Step
    ensures { result ≡ ofFileWord·plain byte }
{
    if byte == b'\\' {
        return Step::goes_on(Sign::Begun);
    }
    Step::stands(byte)
}

// The byte after a backslash.
#[tactic(auto, unfolding(crate::specs::FileWord::lettered))]
fn lettered(letter: u8) -> Step
    ensures { result ≡ ofFileWord·lettered letter }
{
    match letter {
        b't' => Step::stands(b'\t'),
        b'n' => Step::stands(b'\n'),
        b's' => Step::stands(b' '),
        b'\\' => Step::stands(b'\\'),
        b'x' => Step::goes_on(Sign::Hex),
        b'e' => Step::goes_on(Sign::Over),
        _ => Step::goes_on(Sign::Bad),
    }
}

#[tactic(auto, unfolding(crate::specs::FileWord::first_digit, crate::specs::FileWord::is_hex))]
fn first_digit(high: u8) -> Step
    ensures { result ≡ first_digit high }
{
    if high.is_ascii_hexdigit() {
        return Step::goes_on(Sign::Half(high));
    }
    Step::goes_on(Sign::Bad)
}

#[tactic(auto, unfolding(crate::specs::FileWord::second_digit, crate::specs::FileWord::is_hex))]
fn second_digit(high: u8, low: u8) -> Step
    ensures { result ≡ second_digit high low }
{
    if low.is_ascii_hexdigit() {
        return Step::stands(BASE * hex_of(high) + hex_of(low));
    }
    Step::goes_on(Sign::Bad)
}

// The value of a digit: a letter, capital or small, stands 9 further in its row of sixteen than its value.
#[tactic(auto, unfolding(crate::specs::FileWord::hex_of))]
fn hex_of(byte: u8) -> u8
    ensures value { result ≡ hex_of byte }
    ensures upper_bound { result < 16 }
{
    if byte <= b'9' {
        return byte % BASE;
    }
    (byte % BASE + 9) % BASE
}
