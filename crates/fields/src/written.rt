// Lines put on a sheet, and numbers as the fields of a line.
ghost use Rattle.texts.specs.Lent.{Puts};
ghost use Rattle.fields.specs.Lines.{line, fields_text, line_text};

use crate::TAB;
use decimals::put_number;
use texts::Sheet;

// Numbers more, each after a tab.
#[tactic(auto, using(crate::proofs::FieldsText::fields_more, crate::proofs::FieldsText::fields_all), unfolding(crate::specs::Lines::fields_text, texts::specs::Sheet::joined, texts::specs::Sheet::puts))]
pub fn put_fields(sheet: &mut Sheet<'_>, numbers: &[u64])
    ensures { Puts (fields_text numbers.now) sheet.old sheet.new }
{
    for &number in numbers {
        sheet.put(TAB);
        put_number(sheet, number);
    }
}

// A line more: a word, its numbers, and the line feed.
#[tactic(auto, using(crate::proofs::FieldsText::put_line))]
pub fn put_line(sheet: &mut Sheet<'_>, word: &[u8], numbers: &[u64])
    ensures { Puts (line_text (line word.now numbers.now)) sheet.old sheet.new }
{
    sheet.put_text(word);
    put_fields(sheet, numbers);
    sheet.put(b'\n');
}
