// What is wrong with a line, as text: the number of the line, and its first mistake.
#![tactic(auto)]

ghost use Rattle.texts.specs.Lent.{Puts};
ghost use Rattle.fault_text.specs.FaultText.{fault_text, error_text};

use commands::Fault;
use decimals::put_number;
use texts::Sheet;

pub fn put_error(sheet: &mut Sheet<'_>, number: u64, fault: Fault)
    ensures { Puts (error_text number fault) sheet.old sheet.new }
{
    sheet.put_text(b"error: line ");
    put_number(sheet, number);
    sheet.put_text(b": ");
    put_fault(sheet, fault);
}

#[tactic(auto, unfolding(crate::specs::FaultText::fault_text, texts::specs::Text::text, laws::specs::Fills::tabulate))]
fn put_fault(sheet: &mut Sheet<'_>, fault: Fault)
    ensures { Puts (fault_text fault) sheet.old sheet.new }
{
    sheet.put_text(match fault {
        Fault::TooLong => b"line too long",
        Fault::UnknownCommand => b"unknown command",
        Fault::WrongCount => b"wrong number of arguments",
        Fault::NotANumber => b"not a decimal number of up to 64 bits",
        Fault::NotAFile => b"not a file in one word",
    });
}
