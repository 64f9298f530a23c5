// A reason as text, put on a lent sheet: the number of a refusal, or a 0 and the reason's words.
#![tactic(auto)]

ghost use Rattle.texts.specs.Lent.{Puts};
ghost use Rattle.reason_text.specs.ReasonText.{reason_text};

use decimals::put_number;
use reasons::Reason;
use texts::Sheet;

#[tactic(auto, unfolding(crate::specs::ReasonText::reason_text, texts::specs::Text::text, laws::specs::Fills::tabulate))]
pub fn put_reason(sheet: &mut Sheet<'_>, reason: Reason)
    ensures { Puts (reason_text reason) sheet.old sheet.new }
{
    match reason {
        Reason::NotSound | Reason::OutOfRange | Reason::NoBlind => {
            put_number(sheet, u64::from(reason.number()));
        }
        Reason::NotLinked => sheet.put_text(b"0 not-linked"),
        Reason::WrongClass => sheet.put_text(b"0 wrong-class"),
        Reason::UnderWind => sheet.put_text(b"0 under-wind"),
        Reason::UnderRain => sheet.put_text(b"0 under-rain"),
        Reason::UnderFrost => sheet.put_text(b"0 under-frost"),
        Reason::UnderForced => sheet.put_text(b"0 under-forced"),
        Reason::NoPosition => sheet.put_text(b"0 no-position"),
        Reason::Waiting(rest) => {
            sheet.put_text(b"0 waiting ");
            put_number(sheet, u64::from(rest));
        }
        Reason::Acts => sheet.put_text(b"0 acts"),
        Reason::AlreadySo => sheet.put_text(b"0 already-so"),
    }
}
