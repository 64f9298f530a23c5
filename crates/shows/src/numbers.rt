// The numbers of an answer line: the number of the table, and the count with it.
ghost use Rattle.texts.specs.Lent.{Puts};
ghost use Rattle.answers.specs.Numbers.{answer_of, count_of};
ghost use Rattle.shows.specs.Numbers.{spaced, counted};

use answers::{Refusal, number};
use decimals::put_number;
use texts::Sheet;

// A number with a space before it.
#[tactic(auto, using(texts::proofs::Sheets::pieces), unfolding(texts::specs::Text::text, laws::specs::Fills::tabulate, crate::specs::Numbers::spaced))]
pub fn put_spaced(sheet: &mut Sheet<'_>, n: u64)
    ensures { Puts (spaced n) sheet.old sheet.new }
{
    sheet.put(b' ');
    put_number(sheet, n);
}

#[tactic(auto, using(texts::proofs::Sheets::pieces), unfolding(crate::specs::Numbers::counted))]
pub fn put_counted(sheet: &mut Sheet<'_>, number: u8, count: u64)
    ensures { Puts (counted number count) sheet.old sheet.new }
{
    put_number(sheet, u64::from(number));
    put_spaced(sheet, count);
}

// The numbers of an outcome.
pub fn put_outcome(sheet: &mut Sheet<'_>, outcome: Result<u64, Refusal>)
    ensures { Puts (counted (answer_of outcome) (count_of outcome)) sheet.old sheet.new }
{
    put_counted(sheet, number(outcome), outcome.unwrap_or(0));
}
