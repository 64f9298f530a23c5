// The answer to `write`: the numbers, and the file in one word.
ghost use Rattle.std.specs.Prelude.{min, ◌≡◌, replicate};
ghost use Rattle.answers.specs.Numbers.{answer_of, count_of};
ghost use Rattle.fields.specs.Room.{room};
ghost use Rattle.texts.specs.Lent.{Puts};
ghost use Rattle.desk.specs.Desk.{file_text};

use answers::Refusal;
use fields::ROOM;
use file_word::put_packed;
use shows::numbers::put_outcome;
use texts::Sheet;

// The buffer, in a function of its own so that a proof of its caller need not look at each byte.
pub(crate) fn clear() -> [u8; ROOM]
    ensures { result ≡ replicate room 0 }
{
    [0; ROOM]
}

// How many bytes are lent where so many are asked for.
pub(crate) fn lent_of(asked: u64) -> usize
    ensures { result ≡ min asked room }
{
    asked.min(ROOM as u64) as usize
}

// Where the call was refused, a dash stands for the file.
#[tactic(auto, using(texts::proofs::Sheets::pieces, crate::proofs::Lent::take_least), unfolding(crate::specs::Desk::file_text, texts::specs::Text::text, laws::specs::Fills::tabulate))]
pub(crate) fn put_file(sheet: &mut Sheet<'_>, written: Result<usize, Refusal>, lent: &[u8])
    ensures { Puts (file_text (answer_of written) (count_of written) lent.now) sheet.old sheet.new }
{
    put_outcome(sheet, written.map(|length| length as u64));
    sheet.put(b' ');
    match written {
        Ok(length) => put_packed(sheet, &lent[..length.min(lent.len())]),
        Err(_) => sheet.put(b'-'),
    }
}
