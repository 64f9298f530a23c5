// What is said of a plant file in one line, without a panel at hand: that it is good and what it holds, or where it is bad.
#![tactic(auto)]

ghost use Rattle.texts.specs.Lent.{Puts};
ghost use Rattle.fields.specs.Lines.{line_text};
ghost use Rattle.verdicts.specs.Verdicts.{verdict};

use fields::ROOM;
use fields::written::put_line;
use plant_reader::{BadLine, FileRead, read};
use texts::Sheet;

// Puts the line on a sheet.
#[tactic(auto, using(crate::proofs::Said::long_said), unfolding(texts::specs::Text::text, laws::specs::Fills::tabulate, fields::specs::Lines::line_text, fields::specs::Lines::line_bytes, fields::specs::Parts::between, texts::specs::Sheet::joined))]
pub fn put_verdict(sheet: &mut Sheet<'_>, file: &[u8])
    ensures { Puts (line_text (verdict file.now)) sheet.old sheet.new }
{
    if ROOM < file.len() {
        return sheet.put_text(b"too long\n");
    }
    let FileRead { outcome, panel } = read(file);
    match outcome {
        Ok(_) => {
            let held = [panel.present.count() as u64, panel.table.count as u64];
            put_line(sheet, b"ok", &held);
        }
        Err(BadLine(line)) => put_line(sheet, b"bad", &[line]),
    }
}
